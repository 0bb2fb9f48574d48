//! A reader of bytes, and what is compared.
use explain_command::{Failure, explained};
use guide_names::Names;
use std::alloc::Global;
use std::io;
use std::io::{ErrorKind, Read};
use std::test::Fail;

/// A reader of bytes, at most this many at once, that fails after this many reads.
#[derive(Drop)]
pub struct Slow<'a> {
    pub left: &'a [u8],
    pub most: usize,
    pub reads: usize,
}

impl<'a> Read for Slow<'a> {
    fn read(&mut self, bytes: &mut [u8]) -> io::Result<usize> {
        if self.reads == 0 {
            return Err(io::Error::from(ErrorKind::BrokenPipe));
        }
        self.reads -= 1;
        let count = bytes.len().min(self.left.len()).min(self.most);
        let (first, left) = self.left.split_at(count);
        bytes[..count].copy_from_slice(first);
        self.left = left;
        Ok(count)
    }
}

/// A reader of all of these bytes.
pub fn whole(text: &[u8]) -> Slow<'_> {
    Slow {
        left: text,
        most: usize::MAX,
        reads: usize::MAX,
    }
}

/// The lines on these acknowledgments.
pub fn lines_on(alloc: Global, text: &[u8]) -> Result<Vec<u8>, Failure> {
    Ok(explained(alloc, &Names::none(alloc), whole(text))?.lines)
}

/// Whether a text is the one that is wanted; if not, it is shown.
pub fn same(alloc: Global, found: &[u8], wanted: &[u8]) -> Result<(), Fail> {
    if found == wanted {
        return Ok(());
    }
    Err(Fail::new(String::from_utf8_lossy(alloc, found)?))
}
