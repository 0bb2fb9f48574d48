//! Arguments that are no command line, and a run in a folder of the system.
use crate::examples::{COUNTERS, GUIDE, IN, NAMES, SETUP};
use crate::tests::same;
use std::alloc::{AllocError, Global};
use std::fs;
use std::rt::Files;
use std::test::Fail;
use track_command::track_main;

/// The options of a night, and the files that they name.
const OPTIONS: &[(&str, &str)] = &[
    ("--setup", "setup.toml"),
    ("--guide", "h850.toml"),
    ("--counters", "counters.toml"),
    ("--in", "in.x12"),
    ("--track", "track.csv"),
];

/// The arguments of a night in this folder.
fn words_in(alloc: Global, folder: &str, more: &[&str]) -> Result<Vec<String>, AllocError> {
    let mut words = Vec::new(alloc);
    words.push(String::from_str(alloc, "--at=202603011530")?)?;
    for (option, file) in OPTIONS {
        words.push(String::from_str(alloc, option)?)?;
        words.push(format!(in alloc; "{folder}/{file}")?)?;
    }
    for word in more {
        words.push(String::from_str(alloc, word)?)?;
    }
    Ok(words)
}

/// Whether a run by the arguments of this folder, and these, has this status, prints nothing, and this on standard error.
fn expect<R: Files + AllocGlobal>(
    rt: &R,
    folder: &str,
    more: &[&str],
    status: u8,
    line: &[u8],
) -> Result<(), Fail> {
    let words = words_in(rt.alloc(), folder, more)?;
    let mut out = Vec::new(rt.alloc());
    let mut err = Vec::new(rt.alloc());
    let found = track_main(rt, words.as_slice(), &mut out, &mut err);
    same(rt.alloc(), out.as_slice(), b"")?;
    same(rt.alloc(), err.as_slice(), line)?;
    if found != status {
        return Err(Fail::new(format!(in rt.alloc(); "status {found}")?));
    }
    Ok(())
}

/// Arguments that are added to those of a night and make them no command line, and the mistake that is named.
const MISTAKES: &[(&[&str], &str)] = &[
    (&["--out", "out"], "unexpected argument '--out' found"),
    (&["more"], "unexpected argument 'more' found"),
    (
        &["--in", "twice"],
        "the argument '--in <FILE>' cannot be used multiple times",
    ),
    (
        &["--track", "twice"],
        "the argument '--track <FILE>' cannot be used multiple times",
    ),
    (
        &["--workers", "0"],
        "invalid value '0' for '--workers <N>': 0 is not in 1..=64",
    ),
    (
        &["--workers", "65"],
        "invalid value '65' for '--workers <N>': 65 is not in 1..=64",
    ),
    (
        &["--piece", "0"],
        "invalid value '0' for '--piece <BYTES>': 0 is not in 1..=4294967295",
    ),
    (
        &["--document"],
        "a value is required for '--document <SET=SEGELEMENT>' but none was supplied",
    ),
    (&["--document", ""], "--document"),
    (&["--document", "850"], "--document"),
    (&["--document", "850=BEG"], "--document"),
    (&["--document", "850=BEG00"], "--document"),
    (&["--document", "850=BEG3"], "--document"),
    (&["--document", "850=BEG003"], "--document"),
    (&["--document", "85=BEG03"], "--document"),
    (&["--document", "850:BEG03"], "--document"),
    (&["--document", "850=B-G03"], "--document"),
    (
        &["--document", "850=BEG03", "--document", "x"],
        "--document",
    ),
];

#[test]
fn mistakes_are_named(rt: HostRuntime) -> Result<(), Fail> {
    for (more, mistake) in MISTAKES {
        let line = format!(in rt.alloc(); "nighthub_track: usage: {mistake}\n")?;
        expect(&rt, "no_folder", more, 2, line.as_bytes())?;
    }
    let mut out = Vec::new(rt.alloc());
    let mut err = Vec::new(rt.alloc());
    let none: &[&str] = &[];
    assert_eq!(rt; track_main(&rt, none, &mut out, &mut err), 2);
    same(
        rt.alloc(),
        err.as_slice(),
        b"nighthub_track: usage: the following required arguments were not provided:  --setup <FILE>  --guide <FILE>  \
          --counters <FILE>  --at <CCYYMMDDHHMM>  --in <FILE>  --track <FILE>\n",
    )
}

/// Runs by files that aren't there yet, each of which is then written; then by all of them, and once more.
#[test]
fn each_file_is_asked_for_in_turn(rt: HostRuntime) -> Result<(), Fail> {
    fs::create_dir(&rt, "track")?;
    let guide = b"nighthub_track: guide track/h850.toml 0\n";
    expect(&rt, "track", &[], 3, guide)?;
    write(&rt, "track/h850.toml", GUIDE)?;
    expect(&rt, "track", &[], 3, b"nighthub_track: setup file 0\n")?;
    write(&rt, "track/setup.toml", SETUP)?;
    expect(&rt, "track", &[], 3, b"nighthub_track: counters file 0\n")?;
    write(&rt, "track/counters.toml", COUNTERS)?;
    expect(&rt, "track", &[], 4, b"nighthub_track: input\n")?;
    write(&rt, "track/in.x12", IN)?;
    expect(
        &rt,
        "track",
        &["--document", "850=BEG02", "--workers", "7"],
        1,
        b"",
    )?;
    let table = fs::read(&rt, "track/track.csv")?;
    same(
        rt.alloc(),
        &table.as_slice()[..NAMES.len().min(table.len())],
        NAMES,
    )?;
    let there = b"nighthub_track: output track/track.csv is there already\n";
    expect(&rt, "track", &[], 5, there)?;
    fs::remove_dir_all(&rt, "track")?;
    Ok(())
}

fn write<R: Files>(rt: &R, path: &str, bytes: &[u8]) -> Result<(), Fail> {
    fs::write(rt, path, bytes)?;
    Ok(())
}
