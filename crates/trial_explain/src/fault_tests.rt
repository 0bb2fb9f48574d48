//! Readers and writers that fail at each call in turn.
use crate::examples::{LINES, TOLD};
use crate::readers::{Slow, same};
use explain_command::{Failure, explain_main, explained};
use guide_names::Names;
use std::io::{ErrorKind, Write};
use std::rt::Files;
use std::test::Fail;
use std::{fs, io};

/// The acknowledgments, read by 100 bytes, until this many reads.
fn slow(reads: usize) -> Slow<'static> {
    Slow {
        left: TOLD,
        most: 100,
        reads,
    }
}

#[test]
fn a_file_that_fails_at_some_read_is_not_explained(rt: HostRuntime) -> Result<(), Fail> {
    let all = TOLD.len().div_ceil(100) + 1;
    for reads in 0..all {
        let answer = explained(rt.alloc(), &Names::none(rt.alloc()), slow(reads));
        assert!(rt; matches!(&answer, Err(Failure::Input)), "at read {reads}");
    }
    match explained(rt.alloc(), &Names::none(rt.alloc()), slow(1000)) {
        Ok(account) => same(rt.alloc(), account.lines.as_slice(), LINES),
        Err(_) => Err("refused".into()),
    }
}

/// A writer that takes at most 50 bytes at once, and fails after this many calls.
#[derive(Drop)]
struct Writer {
    taken: Vec<u8>,
    most: usize,
    calls: usize,
}

impl Write for Writer {
    fn write(&mut self, bytes: &[u8]) -> io::Result<usize> {
        if self.calls == 0 {
            return Err(io::Error::from(ErrorKind::BrokenPipe));
        }
        self.calls -= 1;
        let count = bytes.len().min(self.most);
        self.taken.extend_from_slice(&bytes[..count])?;
        Ok(count)
    }

    fn flush(&mut self) -> io::Result<()> {
        if self.calls == 0 {
            return Err(io::Error::from(ErrorKind::BrokenPipe));
        }
        self.calls -= 1;
        Ok(())
    }
}

/// A run on `printed.ack` whose standard output fails after this many calls.
fn prints_until<R: Files + AllocGlobal>(rt: &R, calls: usize) -> Result<(), Fail> {
    let alloc = rt.alloc();
    let mut out = Writer {
        taken: Vec::new(alloc),
        most: 50,
        calls,
    };
    let mut err = Vec::new(alloc);
    let status = explain_main(rt, &["printed.ack"], &mut out, &mut err);
    let is_whole = calls > LINES.len().div_ceil(50);
    let line: &[u8] = if is_whole {
        b""
    } else {
        b"nighthub_explain: output stdout\n"
    };
    same(alloc, err.as_slice(), line)?;
    if status != (if is_whole { 0 } else { 5 }) || !LINES.starts_with(out.taken.as_slice()) {
        return Err(Fail::new(format!(in alloc; "status {status} at {calls}")?));
    }
    Ok(())
}

#[test]
fn says_that_standard_output_failed(rt: HostRuntime) -> Result<(), Fail> {
    fs::write(&rt, "printed.ack", TOLD)?;
    for calls in 0..LINES.len().div_ceil(50) + 3 {
        prints_until(&rt, calls)?;
    }
    fs::remove_file(&rt, "printed.ack")?;
    Ok(())
}

/// The line of a wrong word.
const USAGE: &[u8] = b"nighthub_explain: usage: unexpected argument '--in' found; see --help\n";

/// On a standard error that takes ten bytes at once and fails after this many calls a front of the line is there, and the status is the
/// same.
#[test]
fn passes_over_a_fault_of_standard_error(rt: HostRuntime) -> Result<(), Fail> {
    for calls in 0..20 {
        let mut out = Vec::new(rt.alloc());
        let mut err = Writer {
            taken: Vec::new(rt.alloc()),
            most: 10,
            calls,
        };
        let status = explain_main(&rt, ["--in"].as_slice(), &mut out, &mut err);
        assert!(rt; status == 2 && out.is_empty(), "status {status}");
        assert!(rt;
            USAGE.starts_with(err.taken.as_slice()),
            "another line at {calls}"
        );
        assert!(rt;
            calls < 15 || err.taken.len() == USAGE.len(),
            "no whole line at {calls}"
        );
    }
    Ok(())
}
