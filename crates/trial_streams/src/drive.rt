//! A drive in memory, of which one call fails, and which reports what was lost on it.

use std::alloc::{Allocator, Global};
use std::fs::{Metadata, OpenFile, OpenOptions};
use std::io;
use std::io::{ErrorKind, Read, Seek, SeekFrom, Write};
use std::rt::Files;
use std::sync::atomic::{AtomicU64, Ordering};

/// The call that fails.
#[derive(Clone, Copy, Debug, PartialEq, Eq)]
pub enum Step {
    None,
    Open,
    Write,
    Flush,
    Metadata,
    Sync,
}

/// What is at each path of a drive.
#[derive(Clone, Copy, Debug, PartialEq, Eq)]
pub enum Form {
    /// A file that keeps what it is asked to keep.
    Regular,
    /// What passes its bytes on, and refuses to be synced.
    Pipe,
}

/// How many bytes came how far, of all files of a drive.
#[derive(Drop)]
pub struct Log {
    /// They were written.
    pub written: AtomicU64,
    /// They were flushed after that.
    pub flushed: AtomicU64,
    /// They were synced after that.
    pub synced: AtomicU64,
    /// How often a file was closed that had bytes which were not synced.
    pub lost: AtomicU64,
}

impl Log {
    pub fn new() -> Log {
        Log {
            written: AtomicU64::new(0),
            flushed: AtomicU64::new(0),
            synced: AtomicU64::new(0),
            lost: AtomicU64::new(0),
        }
    }
}

/// A drive of which this call fails by an error of this kind.
#[derive(Drop)]
pub struct Drive<'a> {
    pub alloc: Global,
    pub log: &'a Log,
    pub form: Form,
    pub fails: Step,
    pub kind: ErrorKind,
    /// What each of its files holds that is opened.
    pub content: &'a [u8],
}

impl<'a> Drive<'a> {
    /// A drive of which no call fails, whose files hold these bytes.
    pub fn holding(alloc: Global, log: &'a Log, content: &'a [u8]) -> Drive<'a> {
        Drive {
            alloc,
            log,
            form: Form::Regular,
            fails: Step::None,
            kind: ErrorKind::Other,
            content,
        }
    }
}

/// A file of a drive.
pub struct Sheet<'a> {
    log: &'a Log,
    form: Form,
    fails: Step,
    kind: ErrorKind,
    left: &'a [u8],
}

impl<'a> Sheet<'a> {
    fn at(&self, step: Step) -> io::Result<()> {
        if self.fails == step {
            return Err(io::Error::from(self.kind));
        }
        Ok(())
    }
}

impl<'a> Drop for Sheet<'a> {
    fn drop(self) {
        let Sheet {
            log,
            form: _,
            fails: _,
            kind: _,
            left: _,
        } = self;
        if log.synced.load(Ordering::SeqCst) != log.written.load(Ordering::SeqCst) {
            log.lost.fetch_add(1, Ordering::SeqCst);
        }
    }
}

impl<'a> Write for Sheet<'a> {
    /// Takes three bytes at most.
    fn write(&mut self, buf: &[u8]) -> io::Result<usize> {
        self.at(Step::Write)?;
        let count = buf.len().min(3);
        self.log.written.fetch_add(count as u64, Ordering::SeqCst);
        Ok(count)
    }

    fn flush(&mut self) -> io::Result<()> {
        self.at(Step::Flush)?;
        let written = self.log.written.load(Ordering::SeqCst);
        self.log.flushed.store(written, Ordering::SeqCst);
        Ok(())
    }
}

impl<'a> Read for Sheet<'a> {
    fn read(&mut self, buf: &mut [u8]) -> io::Result<usize> {
        let count = buf.len().min(self.left.len());
        buf[..count].copy_from_slice(&self.left[..count]);
        self.left = &self.left[count..];
        Ok(count)
    }
}

impl<'a> Seek for Sheet<'a> {
    fn seek(&mut self, _to: SeekFrom) -> io::Result<u64> {
        Err(io::Error::from(ErrorKind::Unsupported))
    }
}

impl<'a> OpenFile for Sheet<'a> {
    /// The kit makes none of a pipe, so a folder's is for it.
    fn metadata(&self) -> io::Result<Metadata> {
        self.at(Step::Metadata)?;
        match self.form {
            Form::Regular => Ok(Metadata::of_file(self.log.written.load(Ordering::SeqCst))),
            Form::Pipe => Ok(Metadata::of_dir()),
        }
    }

    fn set_len(&self, _size: u64) -> io::Result<()> {
        Err(io::Error::from(ErrorKind::Unsupported))
    }

    fn sync_all(&self) -> io::Result<()> {
        self.at(Step::Sync)?;
        if self.form == Form::Pipe {
            return Err(io::Error::from(ErrorKind::InvalidInput));
        }
        let flushed = self.log.flushed.load(Ordering::SeqCst);
        self.log.synced.store(flushed, Ordering::SeqCst);
        Ok(())
    }

    fn sync_data(&self) -> io::Result<()> {
        Err(io::Error::from(ErrorKind::Unsupported))
    }
}

impl<'a> Alloc for Drive<'a> {
    type A = Global;

    fn alloc(&self) -> Global {
        self.alloc
    }
}

impl<'a> Files for Drive<'a> {
    type File = Sheet<'a>;

    type Dir = &'static [u8];

    fn open_file(&self, how: &OpenOptions, _path: &str) -> io::Result<Sheet<'a>> {
        how.check()?;
        if self.fails == Step::Open {
            return Err(io::Error::from(self.kind));
        }
        Ok(Sheet {
            log: self.log,
            form: self.form,
            fails: self.fails,
            kind: self.kind,
            left: self.content,
        })
    }

    fn open_dir(&self, _path: &str) -> io::Result<&'static [u8]> {
        Err(io::Error::from(ErrorKind::Unsupported))
    }

    fn metadata(&self, _path: &str) -> io::Result<Metadata> {
        Err(io::Error::from(ErrorKind::Unsupported))
    }

    fn symlink_metadata(&self, _path: &str) -> io::Result<Metadata> {
        Err(io::Error::from(ErrorKind::Unsupported))
    }

    fn copy(&self, _from: &str, _to: &str) -> io::Result<u64> {
        Err(io::Error::from(ErrorKind::Unsupported))
    }

    fn rename(&self, _from: &str, _to: &str) -> io::Result<()> {
        Err(io::Error::from(ErrorKind::Unsupported))
    }

    fn remove_file(&self, _path: &str) -> io::Result<()> {
        Err(io::Error::from(ErrorKind::Unsupported))
    }

    fn create_dir(&self, _path: &str) -> io::Result<()> {
        Err(io::Error::from(ErrorKind::Unsupported))
    }

    fn remove_dir(&self, _path: &str) -> io::Result<()> {
        Err(io::Error::from(ErrorKind::Unsupported))
    }

    fn remove_dir_all<B: Allocator>(&self, _alloc: B, _path: &str) -> io::Result<()> {
        Err(io::Error::from(ErrorKind::Unsupported))
    }
}
