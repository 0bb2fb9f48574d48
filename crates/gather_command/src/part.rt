use std::fs::OpenFile;
use std::io;
use std::io::{Seek, SeekFrom, Write};

/// What is gathered so far, of which the last bytes can be taken back.
pub trait Part: Write {
    ghost use Rattle.std.specs.Prelude.{OnOk};
    ghost use Rattle.gather_command.specs.Part.{TakesBack};

    /// Takes back the last `count` bytes.
    fn take_back(&mut self, count: u64) -> io::Result<()>
        ensures { OnOk result (TakesBack (Self.contents self.old) (Self.contents self.new) count) };
}

/// A file of the system that is written from its first byte on.
#[derive(Drop)]
pub(crate) struct PartFile<F> {
    file: F,
    // how many bytes are written
    len: u64,
}

impl<F: Write + OpenFile + Seek> PartFile<F> {
    /// This file, in which nothing is written.
    pub(crate) fn of(file: F) -> PartFile<F> {
        PartFile { file, len: 0 }
    }

    /// Asks the system to keep what is written.
    pub(crate) fn keep(&mut self) -> io::Result<()> {
        self.file.flush()?;
        self.file.sync_all()
    }
}

impl<F: Write> Write for PartFile<F> {
    fn write(&mut self, bytes: &[u8]) -> io::Result<usize> {
        let count = self.file.write(bytes)?;
        self.len = self.len.saturating_add(count as u64);
        Ok(count)
    }

    fn flush(&mut self) -> io::Result<()> {
        self.file.flush()
    }
}

impl<F: Write + OpenFile + Seek> Part for PartFile<F> {
    fn take_back(&mut self, count: u64) -> io::Result<()> {
        let len = self.len.saturating_sub(count);
        self.file.set_len(len)?;
        self.file.seek(SeekFrom::Start(len))?;
        self.len = len;
        Ok(())
    }
}
