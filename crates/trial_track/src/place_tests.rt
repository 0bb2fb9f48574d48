//! A file that is put at its place, on a drive of which each call fails in turn.
use crate::drive::{BESIDE, Drive, Log, PLACE, Step};
use hub_kinds::Lent;
use std::alloc::Global;
use std::io::ErrorKind;
use std::sync::atomic::Ordering;
use std::test::Fail;
use system_io::Outbox;
use track_command::{Places, TrackFailure, is_free};

/// More than one write takes.
const BYTES: &[u8] = &[65; 250];

/// Each call that may fail once a file is written.
const STEPS: &[Step] = &[
    Step::Create,
    Step::Write,
    Step::Flush,
    Step::Metadata,
    Step::Sync,
    Step::Rename,
    Step::OpenFolder,
    Step::SyncFolder,
];

/// The kind of the error that a put gives where this call fails.
fn put_on(alloc: Global, log: &Log, fails: Step) -> Option<ErrorKind> {
    let drive = Drive { alloc, log, fails };
    let mut places = Places::of(&drive);
    places
        .put(PLACE.as_bytes(), &[Lent::new(BYTES)])
        .err()
        .map(|error| error.kind())
}

/// Whether the file is there, and what it was written as.
fn there(log: &Log) -> (u64, u64) {
    (
        log.place.load(Ordering::SeqCst),
        log.beside.load(Ordering::SeqCst),
    )
}

#[test]
fn a_file_is_whole_or_not_at_all(rt: HostRuntime) {
    for step in STEPS {
        let log = Log::new();
        let found = put_on(rt.alloc(), &log, *step);
        assert_eq!(rt; found, Some(ErrorKind::StorageFull), "at {step:?}");
        assert_eq!(rt; there(&log), (0, 0), "at {step:?}");
    }
    let log = Log::new();
    assert_eq!(rt; put_on(rt.alloc(), &log, Step::None), None);
    assert_eq!(rt; there(&log), (1, 0));
    assert_eq!(rt; log.synced.load(Ordering::SeqCst), 250);
    assert_eq!(rt; log.named.load(Ordering::SeqCst), 1);
}

/// What is reported of a place on a drive with these files, where this call fails: 0 that it is free, 1 that a file is there, 2 else.
fn told(alloc: Global, place: u64, beside: u64, fails: Step) -> u8 {
    let log = Log::new();
    log.place.store(place, Ordering::SeqCst);
    log.beside.store(beside, Ordering::SeqCst);
    let drive = Drive {
        alloc,
        log: &log,
        fails,
    };
    match is_free(&drive, PLACE) {
        Ok(_) => 0,
        Err(TrackFailure::There(path)) => {
            let named = if place != 0 { PLACE } else { BESIDE };
            if path.as_slice() == named.as_bytes() {
                1
            } else {
                3
            }
        }
        Err(_) => 2,
    }
}

#[test]
fn a_file_that_is_there_is_left(rt: HostRuntime) -> Result<(), Fail> {
    let alloc = rt.alloc();
    assert_eq!(rt; told(alloc, 0, 0, Step::None), 0);
    assert_eq!(rt; told(alloc, 1, 0, Step::None), 1);
    assert_eq!(rt; told(alloc, 0, 1, Step::None), 1);
    assert_eq!(rt; told(alloc, 0, 0, Step::Look), 2);
    let log = Log::new();
    log.beside.store(1, Ordering::SeqCst);
    let found = put_on(alloc, &log, Step::None);
    assert_eq!(rt; found, Some(ErrorKind::AlreadyExists));
    assert_eq!(rt; there(&log), (0, 1));
    Ok(())
}
