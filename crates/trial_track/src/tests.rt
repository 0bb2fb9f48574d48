//! Whole tables, by sources and outboxes in memory.
use crate::examples::{COUNTERS, GUIDE, IN, NAMES, ROWS, SETUP};
use hub_kinds::{Items, Lent};
use night_command::{Failure, FileAt, Reader, SetupFiles, read_at, setup_of};
use partner_setup::Setup;
use set_documents::{Document, documents_given};
use std::alloc::{AllocError, Global};
use std::io;
use std::io::{ErrorKind, Read};
use std::test::Fail;
use system_io::{Created, Outbox, Written, create_at, open_at, write_and_sync};
use track_command::track_in;
use trial_streams::drive::{Drive, Log, Sheet};
use trial_streams::parts::joined;

/// Whether a text is the one that is wanted; if not, it is shown.
pub(crate) fn same(alloc: Global, found: &[u8], wanted: &[u8]) -> Result<(), Fail> {
    if found == wanted {
        return Ok(());
    }
    Err(Fail::new(String::from_utf8_lossy(alloc, found)?))
}

/// A file at this path that holds these bytes.
fn file_of(alloc: Global, path: &'static str, bytes: &[u8]) -> Result<FileAt<'static>, Fail> {
    let log = Log::new();
    let drive = Drive::holding(alloc, &log, bytes);
    Ok(read_at(alloc, open_at(&drive, path))?)
}

pub(crate) fn example(alloc: Global) -> Result<Setup, Fail> {
    let mut guides = Vec::new(alloc);
    guides.push(file_of(alloc, "h850.toml", GUIDE)?)?;
    let files = SetupFiles {
        guides: Items::from_vec(guides),
        setup: file_of(alloc, "setup.toml", SETUP)?,
        counters: file_of(alloc, "counters.toml", COUNTERS)?,
    };
    match setup_of(alloc, &files) {
        Ok(setup) => Ok(setup),
        Err(_) => Err("no setup")?,
    }
}

/// An outbox that keeps the last file that was put, and may fail.
#[derive(Drop)]
pub(crate) struct Keeps<'a> {
    name: Vec<u8>,
    bytes: Vec<u8>,
    fault: Option<ErrorKind>,
    faults: u64,
    alloc: Global,
    // what each file is written to
    sheet: Created<Sheet<'a>>,
}

impl<'a> Keeps<'a> {
    ghost use Rattle.std.specs.Prelude.{◌≡◌};

    fn keep(&mut self, name: &[u8], bytes: &[u8]) -> Result<(), AllocError>
        ensures { self.new.faults ≡ self.old.faults }
    {
        self.name.extend_from_slice(name)?;
        self.bytes.extend_from_slice(bytes)?;
        Ok(())
    }
}

impl<'a> Outbox for Keeps<'a> {
    ghost faults = { λ k. k.faults };

    fn put<'f>(&mut self, name: &'f [u8], parts: &'f [Lent<'f>]) -> io::Result<Written<'f>> {
        if let Some(fault) = self.fault {
            if fault != ErrorKind::OutOfMemory {
                self.faults += 1;
            }
            return Err(io::Error::from(fault));
        }
        let bytes = joined(self.alloc, parts)?;
        if self.keep(name, bytes.as_slice()).is_err() {
            return Err(io::Error::from(ErrorKind::OutOfMemory));
        }
        match write_and_sync(self.alloc, &mut self.sheet, name, parts) {
            Ok(written) => Ok(written),
            Err(_) => Err(io::Error::from(ErrorKind::OutOfMemory)),
        }
    }
}

/// What the table of a reader's night gives in an outbox that fails so, and what was put.
pub(crate) fn track_of<I: Read + Drop>(
    alloc: Global,
    input: I,
    documents: &[Document<'_>],
    fault: Option<ErrorKind>,
) -> Result<(Option<Failure<'static>>, Vec<u8>, Vec<u8>), Fail> {
    let setup = example(alloc)?;
    let mut source = Reader::new(input);
    let log = Log::new();
    let drive = Drive::holding(alloc, &log, b"");
    let mut outbox = Keeps {
        name: Vec::new(alloc),
        bytes: Vec::new(alloc),
        fault,
        faults: 0,
        alloc,
        sheet: create_at(&drive, String::from_str(alloc, "table")?)?,
    };
    let track = track_in(
        alloc,
        &mut source,
        &mut outbox,
        &setup,
        documents,
        b"track.csv",
    );
    Ok((track.err(), outbox.name, outbox.bytes))
}

/// The usual elements, after these.
pub(crate) fn documents<'a>(
    alloc: Global,
    given: Option<&'a [&'a str]>,
) -> Result<Vec<Document<'a>>, Fail> {
    match documents_given(alloc, given)? {
        Some(documents) => Ok(documents),
        None => Err("no documents")?,
    }
}

#[test]
fn each_set_has_its_rows(rt: HostRuntime) -> Result<(), Fail> {
    let usual = documents(rt.alloc(), None)?;
    let (failure, name, bytes) = track_of(rt.alloc(), IN, usual.as_slice(), None)?;
    assert!(rt; failure.is_none());
    same(rt.alloc(), name.as_slice(), b"track.csv")?;
    let (names, rows) = bytes.as_slice().split_at(NAMES.len().min(bytes.len()));
    same(rt.alloc(), names, NAMES)?;
    same(rt.alloc(), rows, ROWS)
}

#[test]
fn a_night_of_nothing_has_the_names_of_the_columns(rt: HostRuntime) -> Result<(), Fail> {
    let usual = documents(rt.alloc(), None)?;
    let (failure, _, bytes) = track_of(rt.alloc(), b"".as_slice(), usual.as_slice(), None)?;
    assert!(rt; failure.is_none());
    same(rt.alloc(), bytes.as_slice(), NAMES)
}

/// An order, whose number is in its second BEG too, to nobody.
const ORDER: &[u8] =
    b"ISA*00*          *00*          *01*ACME           *ZZ*HUB            *260228*0900*^*00501*000000007*0*P*>~\
      GS*PO*ACME*NONE*20260228*0900*12*X*005010~ST*850*0001~BEG*00*SA*P1~BEG*01*NE*P2~SE*4*0001~GE*1*12~IEA*1*000000007~";

/// The row of the order, before and after its number.
const BEFORE: &[u8] = b"1,0,ACME,000000007,,,PO,12,ACME,NONE,R,,850,0001,";

const AFTER: &[u8] = b",R,5,1,rejected,,,,,,\r\n";

/// Whether the row of the order has this number by these elements.
fn expect_number(alloc: Global, given: &[&str], number: &[u8]) -> Result<(), Fail> {
    let named = documents(alloc, Some(given))?;
    let (failure, _, bytes) = track_of(alloc, ORDER, named.as_slice(), None)?;
    if failure.is_some() {
        return Err("it failed")?;
    }
    let mut wanted = Vec::new(alloc);
    for part in [NAMES, BEFORE, number, AFTER] {
        wanted.extend_from_slice(part)?;
    }
    same(alloc, bytes.as_slice(), wanted.as_slice())
}

#[test]
fn a_document_is_where_it_is_named(rt: HostRuntime) -> Result<(), Fail> {
    let alloc = rt.alloc();
    expect_number(alloc, ["856=BSN02"].as_slice(), b"P1")?;
    expect_number(alloc, ["850=BEG02"].as_slice(), b"SA")?;
    expect_number(alloc, ["850=BEG01", "850=BEG02"].as_slice(), b"00")?;
    expect_number(alloc, ["850=BEG09"].as_slice(), b"")?;
    expect_number(alloc, ["850=REF02"].as_slice(), b"")
}
