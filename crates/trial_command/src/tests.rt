//! Complete nights, each in a separate folder that is gone when the night is over.
use crate::examples::{
    ACME_ACK, ACME_BOX, BOLT_ACK, BOLT_BOX, COUNTERS, H850, H856, NEXT, REPORT, SETUP, TOTAL,
    TWO_PARTNERS,
};
use night_command::night_main;
use std::alloc::{AllocError, Global};
use std::fs;
use std::fs::OpenFile;
use std::rt::Files;
use std::sync::Wait;
use std::test::Fail;
use std::thread::Threads;
use std::time::Clock;

/// What a run gave: its status, and what it printed on standard output and standard error.
pub type Answer = (u8, Vec<u8>, Vec<u8>);

/// The name of a file, and its bytes.
pub type NamedBytes = (&'static str, &'static [u8]);

/// The files of the night of the two partners.
pub const FILES: &[NamedBytes] = &[
    ("setup.toml", SETUP),
    ("h850.toml", H850),
    ("h856.toml", H856),
    ("counters.toml", COUNTERS),
    ("in.x12", TWO_PARTNERS),
];

/// The options, and the files that they name.
const OPTIONS: &[(&str, &str)] = &[
    ("--setup", "setup.toml"),
    ("--guide", "h850.toml"),
    ("--guide", "h856.toml"),
    ("--counters", "counters.toml"),
    ("--in", "in.x12"),
    ("--out", "out"),
];

/// The arguments of a night in this folder.
pub(crate) fn words_in(alloc: Global, folder: &str) -> Result<Vec<String>, AllocError> {
    let mut words = Vec::new(alloc);
    words.push(String::from_str(alloc, "--at")?)?;
    words.push(String::from_str(alloc, "202603011530")?)?;
    for (option, file) in OPTIONS {
        words.push(String::from_str(alloc, option)?)?;
        words.push(format!(in alloc; "{folder}/{file}")?)?;
    }
    Ok(words)
}

/// Writes files into a folder.
fn write_files<R: Files + AllocGlobal + Threads + Wait + Clock + Sync>(
    rt: &R,
    folder: &str,
    files: &[NamedBytes],
) -> Result<(), Fail> {
    for (name, bytes) in files {
        let path = format!(in rt.alloc(); "{folder}/{name}")?;
        fs::write(rt, path.as_str(), *bytes)?;
    }
    Ok(())
}

/// Makes a folder of this name with the files of the night, and one in it for what is written.
pub(crate) fn make_folder<R: Files + AllocGlobal + Threads + Wait + Clock + Sync>(
    rt: &R,
    folder: &str,
) -> Result<(), Fail> {
    fs::create_dir(rt, folder)?;
    let out = format!(in rt.alloc(); "{folder}/out")?;
    fs::create_dir(rt, out.as_str())?;
    write_files(rt, folder, FILES)
}

/// A run by the arguments of this folder.
pub(crate) fn ran_in<R: Files + AllocGlobal + Threads + Wait + Clock + Sync>(
    rt: &R,
    folder: &str,
) -> Result<Answer, Fail> {
    let words = words_in(rt.alloc(), folder)?;
    let mut out = Vec::new(rt.alloc());
    let mut err = Vec::new(rt.alloc());
    let status = night_main(rt, words.as_slice(), &mut out, &mut err);
    Ok((status, out, err))
}

/// Whether a text is the one that is wanted; if not, it is shown.
pub(crate) fn same(alloc: Global, found: &[u8], wanted: &[u8]) -> Result<(), Fail> {
    if found == wanted {
        return Ok(());
    }
    Err(Fail::new(String::from_utf8_lossy(alloc, found)?))
}

/// Whether a run gave this status, and printed this on standard output and on standard error.
pub(crate) fn expect(
    alloc: Global,
    answer: &Answer,
    status: u8,
    out: &[u8],
    err: &[u8],
) -> Result<(), Fail> {
    same(alloc, answer.1.as_slice(), out)?;
    same(alloc, answer.2.as_slice(), err)?;
    if answer.0 != status {
        return Err(Fail::new(format!(in alloc; "status {}", answer.0)?));
    }
    Ok(())
}

/// Whether these files, and no others, are in the folder's own for what is written.
pub(crate) fn expect_files<R: Files + AllocGlobal + Threads + Wait + Clock + Sync>(
    rt: &R,
    folder: &str,
    files: &[NamedBytes],
) -> Result<(), Fail> {
    for (name, bytes) in files {
        let path = format!(in rt.alloc(); "{folder}/out/{name}")?;
        let found = fs::read(rt, path.as_str())?;
        same(rt.alloc(), found.as_slice(), bytes)?;
        fs::remove_file(rt, path.as_str())?;
    }
    let out = format!(in rt.alloc(); "{folder}/out")?;
    fs::remove_dir(rt, out.as_str())?;
    Ok(())
}

/// The files that the night of the two partners writes.
pub const WRITTEN: &[NamedBytes] = &[
    ("ACME.ack", ACME_ACK),
    ("ACME.box", ACME_BOX),
    ("BOLT.ack", BOLT_ACK),
    ("BOLT.box", BOLT_BOX),
    ("report.txt", REPORT),
    ("counters.toml", NEXT),
];

/// An order whose numbers, count and control number are wrong.
const WRONG_NUMBERS: &[u8] =
    b"ISA*00*          *00*          *01*ACME           *ZZ*HUB            *260228*0900*^*00501*000000007*0*P*>~\
      GS*PO*ACME*BOLT*20260228*0900*12*X*005010~ST*850*001~BEG*00*SA*PO100**20260228~PO1*1*5*EA*2.50~SE*5*0002~GE*1*12~\
      IEA*1*000000007~";

const REJECTED: &[u8] =
    b"ISA*00*          *00*          *ZZ*HUB            *01*ACME           *260301*1530*^*00501*000000001*0*P*>~\
      GS*FA*HUB*ACME*20260301*1530*1*X*005010X231~ST*999*0001*005010X231~AK1*PO*12*005010~AK2*850*001~IK5*R*3*4*7~\
      AK9*R*1*1*0~SE*6*0001~GE*1*1~IEA*1*000000001~";

const REJECTED_REPORT: &[u8] = b"interchange 1 at 0 from ACME control 000000007 accepted\n\
    group PO 12 R sets 1 accepted 0\n\
    total interchanges 1 refused 0 groups 1 sets 1 accepted 0 held 0 outside 0\n";

const REJECTED_TOTAL: &[u8] =
    b"total interchanges 1 refused 0 groups 1 sets 1 accepted 0 held 0 outside 0\n";

const REJECTED_NEXT: &[u8] =
    b"version = 2\n\n[[counter]]\npartner = \"ACME\"\ninterchange = 2\ngroup = 2\nset = 1\n\n\
    [[counter]]\npartner = \"BOLT\"\ninterchange = 1\ngroup = 1\nset = 1\n";

const FIRST: &[u8] =
    b"version = 2\n\n[[counter]]\npartner = \"ACME\"\ninterchange = 1\ngroup = 1\nset = 1\n\n\
    [[counter]]\npartner = \"BOLT\"\ninterchange = 1\ngroup = 1\nset = 1\n";

const NOTHING: &[u8] =
    b"total interchanges 0 refused 0 groups 0 sets 0 accepted 0 held 0 outside 0\n";

/// The header, of which one byte is missing.
const HEADER_CUT_OFF: &[u8] =
    b"ISA*00*          *00*          *01*ACME           *ZZ*HUB            *260228*0900*^*00501*000000007*0*P*>";

const OUTSIDE: &[u8] =
    b"total interchanges 0 refused 0 groups 0 sets 0 accepted 0 held 0 outside 62\n";

/// A folder, what came in, the status, what is printed, and the files that are written.
type NightCase = (
    &'static str,
    &'static [u8],
    u8,
    &'static [u8],
    &'static [NamedBytes],
);

const NIGHTS: &[NightCase] = &[
    ("night_two_partners", TWO_PARTNERS, 0, TOTAL, WRITTEN),
    (
        "night_of_nothing",
        b"",
        0,
        NOTHING,
        &[
            ("ACME.ack", b""),
            ("ACME.box", b""),
            ("BOLT.ack", b""),
            ("BOLT.box", b""),
            ("report.txt", NOTHING),
            ("counters.toml", FIRST),
        ],
    ),
    (
        "night_rejected",
        WRONG_NUMBERS,
        1,
        REJECTED_TOTAL,
        &[
            ("ACME.ack", REJECTED),
            ("ACME.box", b""),
            ("BOLT.ack", b""),
            ("BOLT.box", b""),
            ("report.txt", REJECTED_REPORT),
            ("counters.toml", REJECTED_NEXT),
        ],
    ),
    (
        "night_cut_off",
        HEADER_CUT_OFF,
        1,
        OUTSIDE,
        &[
            ("ACME.ack", b""),
            ("ACME.box", b""),
            ("BOLT.ack", b""),
            ("BOLT.box", b""),
            ("report.txt", OUTSIDE),
            ("counters.toml", FIRST),
        ],
    ),
];

fn runs_night<R: Files + AllocGlobal + Threads + Wait + Clock + Sync>(
    rt: &R,
    night: &NightCase,
) -> Result<(), Fail> {
    let (folder, bytes, status, out, files) = *night;
    make_folder(rt, folder)?;
    write_files(rt, folder, &[("in.x12", bytes)])?;
    let answer = ran_in(rt, folder)?;
    expect(rt.alloc(), &answer, status, out, b"")?;
    expect_files(rt, folder, files)?;
    fs::remove_dir_all(rt, folder)?;
    Ok(())
}

fn runs_each_night<R: Files + AllocGlobal + Threads + Wait + Clock + Sync>(
    rt: &R,
    nights: &[NightCase],
) -> Result<(), Fail> {
    for night in nights {
        runs_night(rt, night)?;
    }
    Ok(())
}

#[test]
fn writes_nights(rt: HostRuntime) -> Result<(), Fail> {
    runs_each_night(&rt, NIGHTS)
}

fn ran_on_a_long_file<R: Files + AllocGlobal + Threads + Wait + Clock + Sync>(
    rt: &R,
    folder: &str,
) -> Result<Answer, Fail> {
    make_folder(rt, folder)?;
    let path = format!(in rt.alloc(); "{folder}/in.x12")?;
    fs::create(rt, path.as_str())?.set_len(4_294_967_296)?;
    let answer = ran_in(rt, folder)?;
    expect_files(rt, folder, &[])?;
    fs::remove_dir_all(rt, folder)?;
    Ok(answer)
}

#[test]
fn refuses_a_file_that_is_too_long(rt: HostRuntime) -> Result<(), Fail> {
    let answer = ran_on_a_long_file(&rt, "night_too_long")?;
    expect(rt.alloc(), &answer, 4, b"", b"nighthub: input too long\n")
}

/// What is in a file's place and keeps nothing, so that it can't be synced, is written all the same.
#[test]
fn writes_to_what_cannot_be_synced(rt: HostRuntime) -> Result<(), Fail> {
    make_folder(&rt, "faults_of_devices")?;
    rt.symlink("/dev/null", "faults_of_devices/out/report.txt")?;
    let answer = ran_in(&rt, "faults_of_devices")?;
    expect(rt.alloc(), &answer, 0, TOTAL, b"")?;
    fs::remove_dir_all(&rt, "faults_of_devices")?;
    Ok(())
}
