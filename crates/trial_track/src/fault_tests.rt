//! Readers and outboxes that fail.
use crate::examples::{IN, NAMES};
use crate::tests::{documents, same, track_of};
use night_command::Failure;
use std::io;
use std::io::{ErrorKind, Read};
use std::test::Fail;

/// A reader of bytes, at most seven at once, that fails after this many reads.
#[derive(Drop)]
struct Slow {
    left: &'static [u8],
    reads: usize,
}

impl Read for Slow {
    fn read(&mut self, bytes: &mut [u8]) -> io::Result<usize> {
        if self.reads == 0 {
            return Err(io::Error::from(ErrorKind::BrokenPipe));
        }
        self.reads -= 1;
        let count = bytes.len().min(self.left.len()).min(7);
        let (first, left) = self.left.split_at(count);
        bytes[..count].copy_from_slice(first);
        self.left = left;
        Ok(count)
    }
}

/// A reader of which the interchanges end before it fails gives no table of them.
#[test]
fn an_input_that_fails_has_no_table(rt: HostRuntime) -> Result<(), Fail> {
    let usual = documents(rt.alloc(), None)?;
    for reads in 0..96 {
        let input = Slow { left: IN, reads };
        let (failure, name, _) = track_of(rt.alloc(), input, usual.as_slice(), None)?;
        assert!(rt; matches!(failure, Some(Failure::Input)), "at read {reads}");
        assert!(rt; name.is_empty(), "at read {reads}");
    }
    let input = Slow {
        left: IN,
        reads: 200,
    };
    let (failure, _, bytes) = track_of(rt.alloc(), input, usual.as_slice(), None)?;
    assert!(rt; failure.is_none());
    same(
        rt.alloc(),
        &bytes.as_slice()[..NAMES.len().min(bytes.len())],
        NAMES,
    )
}

#[test]
fn an_outbox_that_fails_is_named(rt: HostRuntime) -> Result<(), Fail> {
    let usual = documents(rt.alloc(), None)?;
    let full = Some(ErrorKind::StorageFull);
    let (failure, name, _) = track_of(rt.alloc(), IN, usual.as_slice(), full)?;
    assert!(rt; name.is_empty());
    match failure {
        Some(Failure::Output(path)) => same(rt.alloc(), path.as_slice(), b"track.csv")?,
        _ => return Err("no file is named")?,
    }
    let memory = Some(ErrorKind::OutOfMemory);
    let (failure, _, _) = track_of(rt.alloc(), IN, usual.as_slice(), memory)?;
    assert!(rt; matches!(failure, Some(Failure::Memory)));
    Ok(())
}
