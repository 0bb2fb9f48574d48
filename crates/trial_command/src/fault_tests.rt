//! Readers, writers and outboxes that fail at each call in turn.
ghost use Rattle.std.specs.Prelude.{◌≡◌};

use crate::examples::{COUNTERS, H850, H856, SETUP, TOTAL, TWO_PARTNERS};
use crate::tests::{Answer, WRITTEN, expect, expect_files, make_folder, ran_in, same, words_in};
use hub_kinds::{Items, Lent};
use moment::At;
use night_command::{
    Created, Failure, FileAt, Outbox, Reader, SetupFiles, Sharing, Written, create_at, night_in,
    night_main, open_at, read_at, read_whole, setup_of, write_and_sync,
};
use partner_setup::Setup;
use std::alloc::{AllocError, Global};
use std::io::{ErrorKind, Read, Write};
use std::rt::Files;
use std::sync::Wait;
use std::test::Fail;
use std::thread::Threads;
use std::time::Clock;
use std::{fs, io};
use trial_streams::drive::{Drive, Log, Sheet};

/// A reader of bytes, at most seven at once, that fails after this many reads.
#[derive(Drop)]
struct Slow {
    left: &'static [u8],
    reads: usize,
    fault: ErrorKind,
}

impl Read for Slow {
    fn read(&mut self, bytes: &mut [u8]) -> io::Result<usize> {
        if self.reads == 0 {
            return Err(io::Error::from(self.fault));
        }
        self.reads -= 1;
        let count = bytes.len().min(self.left.len()).min(7);
        let (first, left) = self.left.split_at(count);
        bytes[..count].copy_from_slice(first);
        self.left = left;
        Ok(count)
    }
}

const TWENTY: &[u8] = b"ISA*00*          *00";

fn failing_reader(reads: usize, fault: ErrorKind) -> Slow {
    Slow {
        left: TWENTY,
        reads,
        fault,
    }
}

/// A reader that is interrupted so often before each of its reads.
#[derive(Drop)]
struct Interrupted {
    left: &'static [u8],
    often: u32,
    row: u32,
}

impl Read for Interrupted {
    fn read(&mut self, bytes: &mut [u8]) -> io::Result<usize> {
        if self.row < self.often {
            self.row += 1;
            return Err(io::Error::from(ErrorKind::Interrupted));
        }
        self.row = 0;
        let count = bytes.len().min(self.left.len());
        let (first, left) = self.left.split_at(count);
        bytes[..count].copy_from_slice(first);
        self.left = left;
        Ok(count)
    }
}

#[test]
fn a_setup_that_fails_at_some_read_is_none(rt: HostRuntime) -> Result<(), Fail> {
    for reads in 0..4 {
        let read = read_whole(rt.alloc(), failing_reader(reads, ErrorKind::BrokenPipe));
        assert!(rt; read.is_err(), "at read {reads}");
    }
    let read = read_whole(rt.alloc(), failing_reader(64, ErrorKind::BrokenPipe))?;
    same(rt.alloc(), read.as_slice(), TWENTY)
}

/// A writer that takes at most five bytes at once, and fails after this many calls.
#[derive(Drop)]
struct Writer {
    taken: Vec<u8>,
    calls: usize,
}

impl Write for Writer {
    fn write(&mut self, bytes: &[u8]) -> io::Result<usize> {
        if self.calls == 0 {
            return Err(io::Error::from(ErrorKind::BrokenPipe));
        }
        self.calls -= 1;
        let count = bytes.len().min(5);
        self.taken.extend_from_slice(&bytes[..count])?;
        Ok(count)
    }

    fn flush(&mut self) -> io::Result<()> {
        if self.calls == 0 {
            return Err(io::Error::from(ErrorKind::BrokenPipe));
        }
        self.calls -= 1;
        Ok(())
    }
}

/// A run in this folder, whose standard output fails after this many calls.
fn ran_until<R: Files + AllocGlobal + Threads + Wait + Clock + Sync>(
    rt: &R,
    folder: &str,
    calls: usize,
) -> Result<Answer, Fail> {
    let words = words_in(rt.alloc(), folder)?;
    let mut out = Writer {
        taken: Vec::new(rt.alloc()),
        calls,
    };
    let mut err = Vec::new(rt.alloc());
    let status = night_main(rt, words.as_slice(), &mut out, &mut err);
    Ok((status, out.taken, err))
}

/// The line takes fifteen writes, its end one, and then it is flushed.
fn expect_until(alloc: Global, answer: &Answer, calls: usize) -> Result<(), Fail> {
    let is_whole = calls >= 17;
    let line: &[u8] = if is_whole {
        b""
    } else {
        b"nighthub: output stdout\n"
    };
    same(alloc, answer.2.as_slice(), line)?;
    let status = answer.0;
    if status != (if is_whole { 0 } else { 5 }) || !TOTAL.starts_with(answer.1.as_slice()) {
        return Err(Fail::new(format!(in alloc; "status {status} at {calls}")?));
    }
    Ok(())
}

fn prints_until<R: Files + AllocGlobal + Threads + Wait + Clock + Sync>(
    rt: &R,
    folder: &str,
    calls: usize,
) -> Result<(), Fail> {
    let answer = ran_until(rt, folder, calls)?;
    expect_until(rt.alloc(), &answer, calls)
}

#[test]
fn says_that_standard_output_failed(rt: HostRuntime) -> Result<(), Fail> {
    make_folder(&rt, "faults_of_output")?;
    for calls in 0..18 {
        prints_until(&rt, "faults_of_output", calls)?;
    }
    expect_files(&rt, "faults_of_output", WRITTEN)?;
    fs::remove_dir_all(&rt, "faults_of_output")?;
    Ok(())
}

/// What a usage prints on a standard error that fails after this many calls.
const LINES: &[&[u8]] = &[
    b"",
    b"night",
    b"nighthub: ",
    b"nighthub: usage",
    b"nighthub: usage\n",
    b"nighthub: usage\n",
];

/// A usage, whose standard error fails after this many calls.
fn usage_until<R: Files + AllocGlobal + Threads + Wait + Clock + Sync>(
    rt: &R,
    calls: usize,
) -> Answer {
    let mut out = Vec::new(rt.alloc());
    let mut err = Writer {
        taken: Vec::new(rt.alloc()),
        calls,
    };
    let status = night_main(rt, ["--in"].as_slice(), &mut out, &mut err);
    (status, out, err.taken)
}

#[test]
fn passes_over_a_fault_of_standard_error(rt: HostRuntime) -> Result<(), Fail> {
    for (calls, line) in LINES.iter().enumerate() {
        let answer = usage_until(&rt, calls);
        expect(rt.alloc(), &answer, 2, b"", line)?;
    }
    Ok(())
}

/// An outbox that keeps the names of its files, a line each, and fails after this many.
#[derive(Drop)]
struct Names<'a> {
    names: Vec<u8>,
    puts: usize,
    fault: ErrorKind,
    faults: u64,
    alloc: Global,
    // what each file is written to
    sheet: Created<Sheet<'a>>,
}

impl<'a> Names<'a> {
    fn keep(&mut self, name: &[u8]) -> Result<(), AllocError>
        ensures { self.new.faults ≡ self.old.faults }
    {
        self.names.extend_from_slice(name)?;
        self.names.push(b'\n')?;
        Ok(())
    }
}

impl<'a> Outbox for Names<'a> {
    ghost faults = { λ n. n.faults };

    fn put<'f>(&mut self, name: &'f [u8], parts: &'f [Lent<'f>]) -> io::Result<Written<'f>> {
        if self.puts == 0 {
            if self.fault != ErrorKind::OutOfMemory {
                self.faults += 1;
            }
            return Err(io::Error::from(self.fault));
        }
        self.puts -= 1;
        if self.keep(name).is_err() {
            return Err(io::Error::from(ErrorKind::OutOfMemory));
        }
        match write_and_sync(self.alloc, &mut self.sheet, name, parts) {
            Ok(written) => Ok(written),
            Err(_) => Err(io::Error::from(ErrorKind::OutOfMemory)),
        }
    }
}

/// A file at this path that holds these bytes.
fn file_of(alloc: Global, path: &'static str, bytes: &[u8]) -> Result<FileAt<'static>, Fail> {
    let log = Log::new();
    let drive = Drive::holding(alloc, &log, bytes);
    Ok(read_at(alloc, open_at(&drive, path))?)
}

fn setup_files(alloc: Global) -> Result<SetupFiles<'static>, Fail> {
    let mut guides = Vec::new(alloc);
    for (path, bytes) in [("h850.toml", H850), ("h856.toml", H856)] {
        guides.push(file_of(alloc, path, bytes)?)?;
    }
    Ok(SetupFiles {
        guides: Items::from_vec(guides),
        setup: file_of(alloc, "setup.toml", SETUP)?,
        counters: file_of(alloc, "counters.toml", COUNTERS)?,
    })
}

fn example(alloc: Global) -> Result<Setup, Fail> {
    let files = setup_files(alloc)?;
    match setup_of(alloc, &files) {
        Ok(setup) => Ok(setup),
        Err(_) => Err("no setup")?,
    }
}

/// The names of the files of a night, and which of them were put before it failed, a line each.
const PUT: &[(&[u8], &[u8])] = &[
    (b"ACME.ack", b""),
    (b"ACME.box", b"ACME.ack\n"),
    (b"BOLT.ack", b"ACME.ack\nACME.box\n"),
    (b"BOLT.box", b"ACME.ack\nACME.box\nBOLT.ack\n"),
    (b"report.txt", b"ACME.ack\nACME.box\nBOLT.ack\nBOLT.box\n"),
    (
        b"counters.toml",
        b"ACME.ack\nACME.box\nBOLT.ack\nBOLT.box\nreport.txt\n",
    ),
];

/// How the nights of these tests are shared.
const SHARING: Sharing = Sharing {
    workers: 2,
    piece: 53,
};

/// What the night of a reader gives in an outbox that fails so, and the names of the files that were put.
fn night_of<R: Threads + Wait + Clock + Sync + AllocGlobal, I: Read + Drop>(
    rt: &R,
    input: I,
    puts: usize,
    fault: ErrorKind,
) -> Result<(Option<Failure<'static>>, Vec<u8>), Fail> {
    let alloc = rt.alloc();
    let setup = example(alloc)?;
    let Some(at) = At::read(b"202603011530") else {
        return Err("no moment")?;
    };
    let mut source = Reader::new(input);
    let log = Log::new();
    let drive = Drive::holding(alloc, &log, b"");
    let mut outbox = Names {
        names: Vec::new(alloc),
        puts,
        fault,
        faults: 0,
        alloc,
        sheet: create_at(&drive, String::from_str(alloc, "night")?)?,
    };
    let night = night_in(rt, alloc, &mut source, &mut outbox, &setup, &at, SHARING);
    Ok((night.err(), outbox.names))
}

#[test]
fn names_the_file_that_failed(rt: HostRuntime) -> Result<(), Fail> {
    for (puts, (name, put)) in PUT.iter().enumerate() {
        let (failure, names) = night_of(&rt, TWO_PARTNERS, puts, ErrorKind::StorageFull)?;
        same(rt.alloc(), names.as_slice(), put)?;
        match failure {
            Some(Failure::Output(failed)) => same(rt.alloc(), failed.as_slice(), name)?,
            _ => return Err("no file is named")?,
        }
    }
    Ok(())
}

#[test]
fn puts_all_files(rt: HostRuntime) -> Result<(), Fail> {
    let (failure, names) = night_of(&rt, TWO_PARTNERS, 6, ErrorKind::StorageFull)?;
    assert!(rt; failure.is_none());
    let all = b"ACME.ack\nACME.box\nBOLT.ack\nBOLT.box\nreport.txt\ncounters.toml\n";
    same(rt.alloc(), names.as_slice(), all)?;
    let (failure, _) = night_of(&rt, TWO_PARTNERS, 2, ErrorKind::OutOfMemory)?;
    assert!(rt; matches!(failure, Some(Failure::Memory)));
    Ok(())
}

#[test]
fn input_that_fails_at_some_read_is_none(rt: HostRuntime) -> Result<(), Fail> {
    for reads in 0..4 {
        let input = failing_reader(reads, ErrorKind::BrokenPipe);
        let (failure, names) = night_of(&rt, input, 6, ErrorKind::StorageFull)?;
        assert!(rt; matches!(failure, Some(Failure::Input)), "at read {reads}");
        assert!(rt; names.is_empty(), "at read {reads}");
    }
    let input = failing_reader(64, ErrorKind::BrokenPipe);
    let (failure, _) = night_of(&rt, input, 6, ErrorKind::StorageFull)?;
    assert!(rt; failure.is_none());
    Ok(())
}

/// The text of the two partners by a reader that is interrupted so often before each read.
fn often_interrupted(often: u32) -> Interrupted {
    Interrupted {
        left: TWO_PARTNERS,
        often,
        row: 0,
    }
}

#[test]
fn tries_again_what_was_interrupted(rt: HostRuntime) -> Result<(), Fail> {
    let (failure, names) = night_of(&rt, often_interrupted(1_000), 6, ErrorKind::StorageFull)?;
    assert!(rt; failure.is_none());
    assert!(rt; !names.is_empty());
    let (failure, names) = night_of(&rt, often_interrupted(1_001), 6, ErrorKind::StorageFull)?;
    assert!(rt; matches!(failure, Some(Failure::Input)));
    assert!(rt; names.is_empty());
    Ok(())
}

/// Names the file that can't be written in the folder, where no folder is, and where a folder is in the file's place.
#[test]
fn names_the_file_that_cannot_be_written(rt: HostRuntime) -> Result<(), Fail> {
    make_folder(&rt, "faults_of_folders")?;
    fs::create_dir(&rt, "faults_of_folders/out/BOLT.box")?;
    let answer = ran_in(&rt, "faults_of_folders")?;
    expect(rt.alloc(), &answer, 5, b"", b"nighthub: output BOLT.box\n")?;
    fs::remove_dir(&rt, "faults_of_folders/out/BOLT.box")?;
    expect_files(&rt, "faults_of_folders", &WRITTEN[..3])?;
    let answer = ran_in(&rt, "faults_of_folders")?;
    expect(rt.alloc(), &answer, 5, b"", b"nighthub: output ACME.ack\n")?;
    fs::remove_dir_all(&rt, "faults_of_folders")?;
    Ok(())
}
