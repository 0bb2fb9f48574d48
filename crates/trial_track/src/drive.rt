//! A drive in memory with one folder, for one file and what it is written as at first, of which one call fails.

use std::alloc::{Allocator, Global};
use std::fs::{Metadata, OpenFile, OpenOptions};
use std::io;
use std::io::{ErrorKind, Read, Seek, SeekFrom, Write};
use std::rt::Files;
use std::sync::atomic::{AtomicU64, Ordering};

/// The call that fails.
#[derive(Clone, Copy, Debug, PartialEq, Eq)]
pub enum Step {
    None,
    Look,
    Create,
    Write,
    Flush,
    Metadata,
    Sync,
    Rename,
    OpenFolder,
    SyncFolder,
}

/// The file of the drive, and what it is written as at first.
pub const PLACE: &str = "out/track.csv";

pub const BESIDE: &str = "out/track.csv.part";

/// What is on a drive: 1 where a file is there, and how many bytes of it were written, and synced after that.
#[derive(Drop)]
pub struct Log {
    pub place: AtomicU64,
    pub beside: AtomicU64,
    pub written: AtomicU64,
    pub synced: AtomicU64,
    /// How often the folder was synced.
    pub named: AtomicU64,
}

impl Log {
    /// An empty folder.
    pub fn new() -> Log {
        Log {
            place: AtomicU64::new(0),
            beside: AtomicU64::new(0),
            written: AtomicU64::new(0),
            synced: AtomicU64::new(0),
            named: AtomicU64::new(0),
        }
    }

    fn at(&self, path: &str) -> Option<&AtomicU64> {
        if path == PLACE {
            Some(&self.place)
        } else if path == BESIDE {
            Some(&self.beside)
        } else {
            None
        }
    }
}

/// A drive of which this call fails.
#[derive(Drop)]
pub struct Drive<'a> {
    pub alloc: Global,
    pub log: &'a Log,
    pub fails: Step,
}

impl<'a> Drive<'a> {
    fn step(&self, step: Step) -> io::Result<()> {
        fail_at(self.fails, step)
    }
}

fn fail_at(fails: Step, step: Step) -> io::Result<()> {
    if fails == step {
        return Err(io::Error::from(ErrorKind::StorageFull));
    }
    Ok(())
}

/// An open file, or the folder.
#[derive(Drop)]
pub struct Sheet<'a> {
    log: &'a Log,
    fails: Step,
    is_folder: bool,
}

impl<'a> Write for Sheet<'a> {
    /// Takes a hundred bytes at most.
    fn write(&mut self, buf: &[u8]) -> io::Result<usize> {
        fail_at(self.fails, Step::Write)?;
        let count = buf.len().min(100);
        self.log.written.fetch_add(count as u64, Ordering::SeqCst);
        Ok(count)
    }

    fn flush(&mut self) -> io::Result<()> {
        fail_at(self.fails, Step::Flush)
    }
}

impl<'a> Read for Sheet<'a> {
    fn read(&mut self, _buf: &mut [u8]) -> io::Result<usize> {
        Err(io::Error::from(ErrorKind::Unsupported))
    }
}

impl<'a> Seek for Sheet<'a> {
    fn seek(&mut self, _to: SeekFrom) -> io::Result<u64> {
        Err(io::Error::from(ErrorKind::Unsupported))
    }
}

impl<'a> OpenFile for Sheet<'a> {
    fn metadata(&self) -> io::Result<Metadata> {
        fail_at(self.fails, Step::Metadata)?;
        Ok(Metadata::of_file(self.log.written.load(Ordering::SeqCst)))
    }

    fn set_len(&self, _size: u64) -> io::Result<()> {
        Err(io::Error::from(ErrorKind::Unsupported))
    }

    fn sync_all(&self) -> io::Result<()> {
        if self.is_folder {
            fail_at(self.fails, Step::SyncFolder)?;
            self.log.named.fetch_add(1, Ordering::SeqCst);
            return Ok(());
        }
        fail_at(self.fails, Step::Sync)?;
        let written = self.log.written.load(Ordering::SeqCst);
        self.log.synced.store(written, Ordering::SeqCst);
        Ok(())
    }

    fn sync_data(&self) -> io::Result<()> {
        Err(io::Error::from(ErrorKind::Unsupported))
    }
}

impl<'a> Alloc for Drive<'a> {
    type A = Global;

    fn alloc(&self) -> Global {
        self.alloc
    }
}

impl<'a> Files for Drive<'a> {
    type File = Sheet<'a>;

    type Dir = &'static [u8];

    fn open_file(&self, how: &OpenOptions, path: &str) -> io::Result<Sheet<'a>> {
        how.check()?;
        let is_folder = path == "out";
        if is_folder {
            self.step(Step::OpenFolder)?;
        } else {
            self.step(Step::Create)?;
            let Some(there) = self.log.at(path) else {
                return Err(io::Error::from(ErrorKind::NotFound));
            };
            if there.swap(1, Ordering::SeqCst) != 0 && how.asks_create_new() {
                return Err(io::Error::from(ErrorKind::AlreadyExists));
            }
        }
        Ok(Sheet {
            log: self.log,
            fails: self.fails,
            is_folder,
        })
    }

    fn open_dir(&self, _path: &str) -> io::Result<&'static [u8]> {
        Err(io::Error::from(ErrorKind::Unsupported))
    }

    fn metadata(&self, path: &str) -> io::Result<Metadata> {
        self.step(Step::Look)?;
        match self.log.at(path) {
            Some(there) if there.load(Ordering::SeqCst) != 0 => Ok(Metadata::of_file(0)),
            _ => Err(io::Error::from(ErrorKind::NotFound)),
        }
    }

    fn symlink_metadata(&self, _path: &str) -> io::Result<Metadata> {
        Err(io::Error::from(ErrorKind::Unsupported))
    }

    fn copy(&self, _from: &str, _to: &str) -> io::Result<u64> {
        Err(io::Error::from(ErrorKind::Unsupported))
    }

    fn rename(&self, from: &str, to: &str) -> io::Result<()> {
        self.step(Step::Rename)?;
        match (self.log.at(from), self.log.at(to)) {
            (Some(old), Some(new)) => {
                new.store(old.swap(0, Ordering::SeqCst), Ordering::SeqCst);
                Ok(())
            }
            _ => Err(io::Error::from(ErrorKind::NotFound)),
        }
    }

    fn remove_file(&self, path: &str) -> io::Result<()> {
        match self.log.at(path) {
            Some(there) => {
                there.store(0, Ordering::SeqCst);
                Ok(())
            }
            None => Err(io::Error::from(ErrorKind::NotFound)),
        }
    }

    fn create_dir(&self, _path: &str) -> io::Result<()> {
        Err(io::Error::from(ErrorKind::Unsupported))
    }

    fn remove_dir(&self, _path: &str) -> io::Result<()> {
        Err(io::Error::from(ErrorKind::Unsupported))
    }

    fn remove_dir_all<B: Allocator>(&self, _alloc: B, _path: &str) -> io::Result<()> {
        Err(io::Error::from(ErrorKind::Unsupported))
    }
}
