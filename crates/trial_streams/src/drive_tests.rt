use crate::drive::{Drive, Form, Log, Step};
use hub_kinds::Lent;
use std::alloc::Global;
use std::io;
use std::io::{ErrorKind, Read};
use std::sync::atomic::Ordering;
use std::test::Fail;
use stream_read::{Source, SourceFault};
use system_io::{Directory, Outbox, Reader, in_one_line};

const NAME: &[u8] = b"ACME.ack";

const BYTES: &[u8] = b"ISA*00*          *00*";

/// The kind of the error that a put gives on such a drive, and whether bytes were lost where it gave none.
fn put_on(alloc: Global, form: Form, fails: Step, kind: ErrorKind) -> (Option<ErrorKind>, bool) {
    let log = Log::new();
    let drive = Drive {
        alloc,
        log: &log,
        form,
        fails,
        kind,
        content: b"",
    };
    let put = {
        let mut folder = Directory::at(&drive, "out");
        folder
            .put(NAME, &[Lent::new(BYTES)])
            .err()
            .map(|error| error.kind())
    };
    let is_whole = log.written.load(Ordering::SeqCst) == BYTES.len() as u64;
    (put, !is_whole || log.lost.load(Ordering::SeqCst) != 0)
}

/// The calls that may fail.
const STEPS: &[Step] = &[
    Step::Open,
    Step::Write,
    Step::Flush,
    Step::Metadata,
    Step::Sync,
];

/// Kinds of errors, those that some layer treats by themselves among them.
const KINDS: &[ErrorKind] = &[
    ErrorKind::StorageFull,
    ErrorKind::QuotaExceeded,
    ErrorKind::OutOfMemory,
    ErrorKind::InvalidInput,
    ErrorKind::Unsupported,
    ErrorKind::BrokenPipe,
    ErrorKind::Other,
];

#[test]
fn each_call_fails_in_turn(rt: HostRuntime) {
    for step in STEPS {
        for kind in KINDS {
            let (found, _) = put_on(rt.alloc(), Form::Regular, *step, *kind);
            assert_eq!(rt; found, Some(*kind), "at {step:?}");
        }
    }
}

#[test]
fn what_is_put_is_kept(rt: HostRuntime) {
    let found = put_on(rt.alloc(), Form::Regular, Step::None, ErrorKind::Other);
    assert_eq!(rt; found, (None, false));
}

#[test]
fn a_pipe_is_not_synced(rt: HostRuntime) {
    let (found, _) = put_on(rt.alloc(), Form::Pipe, Step::None, ErrorKind::Other);
    assert_eq!(rt; found, None);
    let (found, _) = put_on(rt.alloc(), Form::Pipe, Step::Write, ErrorKind::BrokenPipe);
    assert_eq!(rt; found, Some(ErrorKind::BrokenPipe));
}

/// A reader that gives two bytes, then fails once, and then continues.
#[derive(Drop)]
struct Broken {
    reads: u32,
    kind: ErrorKind,
}

impl Read for Broken {
    fn read(&mut self, buf: &mut [u8]) -> io::Result<usize> {
        self.reads = self.reads.saturating_add(1);
        if self.reads == 2 {
            return Err(io::Error::from(self.kind));
        }
        let count = buf.len().min(2);
        buf[..count].fill(b'A');
        Ok(count)
    }
}

/// What a second read answers whose error is of this kind, and what a third one gives.
const ANSWERS: &[(ErrorKind, SourceFault, usize)] = &[
    (ErrorKind::Interrupted, SourceFault::Interrupted, 2),
    (ErrorKind::UnexpectedEof, SourceFault::Failed, 0),
    (ErrorKind::OutOfMemory, SourceFault::Failed, 0),
    (ErrorKind::WouldBlock, SourceFault::Failed, 0),
    (ErrorKind::StaleNetworkFileHandle, SourceFault::Failed, 0),
];

#[test]
fn a_failed_read_is_no_end(rt: HostRuntime) -> Result<(), Fail> {
    for (kind, fault, after) in ANSWERS {
        let mut reader = Reader::new(Broken {
            reads: 0,
            kind: *kind,
        });
        let mut buf = [0; 4];
        assert_eq!(rt; reader.read(&mut buf), Ok(2), "{kind:?}");
        assert_eq!(rt; reader.read(&mut buf), Err(*fault), "{kind:?}");
        assert_eq!(rt; reader.read(&mut buf), Ok(*after), "{kind:?}");
    }
    Ok(())
}

#[test]
fn a_mistake_stands_in_one_line(rt: HostRuntime) -> Result<(), Fail> {
    let line = in_one_line(rt.alloc(), b"what \x1b[31m\n  is\x7f \xc3\xa9\n")?;
    assert_eq!(rt; line.as_slice(), b"what [31m  is \xc3\xa9".as_slice());
    Ok(())
}

#[test]
fn many_parts_are_written_one_after_the_other(rt: HostRuntime) -> Result<(), Fail> {
    let log = Log::new();
    let drive = Drive::holding(rt.alloc(), &log, b"");
    let large = Vec::from_elem(rt.alloc(), b'A', 300_000)?;
    let mut folder = Directory::at(&drive, "out");
    let parts = [
        Lent::new(BYTES),
        Lent::new(large.as_slice()),
        Lent::new(b""),
        Lent::new(BYTES),
    ];
    let written = folder.put(NAME, parts.as_slice())?;
    assert_eq!(rt; written.path(), "out/ACME.ack");
    assert_eq!(rt; log.synced.load(Ordering::SeqCst), 300_042);
    Ok(())
}
