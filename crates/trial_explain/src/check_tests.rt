//! Writers that fail at each call in turn.
use check_command::check_main;
use std::alloc::Global;
use std::io;
use std::io::{ErrorKind, Write};
use std::test::Fail;

/// A writer that takes at most 50 bytes at once, and fails after this many calls.
#[derive(Drop)]
struct Writer {
    taken: Vec<u8>,
    calls: usize,
}

impl Write for Writer {
    fn write(&mut self, bytes: &[u8]) -> io::Result<usize> {
        if self.calls == 0 {
            return Err(io::Error::from(ErrorKind::BrokenPipe));
        }
        self.calls -= 1;
        let count = bytes.len().min(50);
        self.taken.extend_from_slice(&bytes[..count])?;
        Ok(count)
    }

    fn flush(&mut self) -> io::Result<()> {
        if self.calls == 0 {
            return Err(io::Error::from(ErrorKind::BrokenPipe));
        }
        self.calls -= 1;
        Ok(())
    }
}

/// What is reported of a file that isn't there.
const LINE: &[u8] = b"nowhere/setup.toml: it can't be read\n";

#[test]
fn a_line_that_is_not_flushed_is_a_failure(rt: HostRuntime) -> Result<(), Fail> {
    for calls in 0..4 {
        let mut out = Writer {
            taken: Vec::new(rt.alloc()),
            calls,
        };
        let mut err = Vec::new(rt.alloc());
        let status = check_main(&rt, &["--setup", "nowhere/setup.toml"], &mut out, &mut err);
        let is_whole = calls >= 2;
        let line: &[u8] = if is_whole {
            b""
        } else {
            b"nighthub_check: output stdout\n"
        };
        assert!(rt;
            status == (if is_whole { 3 } else { 5 }),
            "status {status} at {calls}"
        );
        assert!(rt; err.as_slice() == line, "standard error at {calls}");
        assert!(rt;
            LINE.starts_with(out.taken.as_slice()),
            "standard output at {calls}"
        );
    }
    Ok(())
}
