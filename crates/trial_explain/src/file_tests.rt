//! Files and arguments.
use crate::examples::{LINES, TOLD};
use crate::readers::same;
use explain_command::explain_main;
use std::fs;
use std::rt::Files;
use std::test::Fail;

/// What a run gave: its status, and what it printed on standard output and standard error.
type Answer = (u8, Vec<u8>, Vec<u8>);

fn ran<R: Files + AllocGlobal>(rt: &R, words: &[&str]) -> Answer {
    let mut out = Vec::new(rt.alloc());
    let mut err = Vec::new(rt.alloc());
    let status = explain_main(rt, words, &mut out, &mut err);
    (status, out, err)
}

/// Whether a run gave this status, and printed this on standard output and on standard error.
fn expect<R: Files + AllocGlobal>(
    rt: &R,
    words: &[&str],
    status: u8,
    out: &[u8],
    err: &[u8],
) -> Result<(), Fail> {
    let answer = ran(rt, words);
    same(rt.alloc(), answer.1.as_slice(), out)?;
    same(rt.alloc(), answer.2.as_slice(), err)?;
    if answer.0 != status {
        return Err(Fail::new(format!(in rt.alloc(); "status {}", answer.0)?));
    }
    Ok(())
}

/// Files that aren't explained, and the line on each.
const REFUSED: &[(&[u8], &[u8])] = &[
    (b"\n", b"nighthub_explain: input 1\n"),
    (
        b"TA1*000000007*260228*0900*A*000~",
        b"nighthub_explain: input 1\n",
    ),
    (
        b"ISA*00*          *00*          *ZZ*HUB            *01*ACME           *260301*1530*^*00501*000000001*0*P*>~",
        b"nighthub_explain: input 2\n",
    ),
];

#[test]
fn explains_a_file(rt: HostRuntime) -> Result<(), Fail> {
    fs::write(&rt, "explained.ack", TOLD)?;
    expect(&rt, &["explained.ack"], 0, LINES, b"")?;
    fs::write(&rt, "explained.ack", b"".as_slice())?;
    expect(&rt, &["explained.ack"], 0, b"no acknowledgments\n", b"")?;
    for (text, line) in REFUSED {
        fs::write(&rt, "explained.ack", *text)?;
        expect(&rt, &["explained.ack"], 4, b"", line)?;
    }
    fs::remove_file(&rt, "explained.ack")?;
    expect(
        &rt,
        &["explained.ack"],
        4,
        b"",
        b"nighthub_explain: input\n",
    )
}

/// Lines, each with a name in front.
fn named<R: Files + AllocGlobal>(rt: &R, name: &str, lines: &[u8]) -> Result<Vec<u8>, Fail> {
    let mut text = Vec::new(rt.alloc());
    for line in lines.split(|byte| *byte == b'\n') {
        if !line.is_empty() {
            text.extend_from_slice(name.as_bytes())?;
            text.extend_from_slice(line)?;
            text.push(b'\n')?;
        }
    }
    Ok(text)
}

/// Several files, of which one is cut off and one isn't there: each is reported, and the status is the worst of theirs.
#[test]
fn explains_several_files(rt: HostRuntime) -> Result<(), Fail> {
    fs::write(&rt, "first.ack", TOLD)?;
    fs::write(&rt, "second.ack", b"".as_slice())?;
    let mut lines = named(&rt, "first.ack: ", LINES)?;
    lines.extend_from_slice(b"second.ack: no acknowledgments\n")?;
    expect(&rt, &["first.ack", "second.ack"], 0, lines.as_slice(), b"")?;
    fs::write(&rt, "second.ack", TOLD.get(..TOLD.len() - 1).unwrap_or(b""))?;
    let mut lines = named(&rt, "second.ack: ", LINES)?;
    lines.extend_from_slice(named(&rt, "first.ack: ", LINES)?.as_slice())?;
    expect(
        &rt,
        &["second.ack", "third.ack", "first.ack"],
        4,
        lines.as_slice(),
        b"nighthub_explain: second.ack: the text ends inside a segment\nnighthub_explain: third.ack: input\n",
    )?;
    fs::remove_file(&rt, "first.ack")?;
    fs::remove_file(&rt, "second.ack")?;
    Ok(())
}

/// Arguments that are no command line.
const NO_COMMAND_LINES: &[&[&str]] = &[&[], &["--in", "a.ack"], &["-x"], &["a.ack", "-x"]];

#[test]
fn says_what_the_words_must_be(rt: HostRuntime) -> Result<(), Fail> {
    for words in NO_COMMAND_LINES {
        let answer = ran(&rt, words);
        let line = answer.2.as_slice();
        assert!(rt; answer.0 == 2 && answer.1.is_empty(), "another status");
        assert!(rt;
            line.starts_with(b"nighthub_explain: usage: ") && line.ends_with(b"; see --help\n"),
            "another line"
        );
    }
    let help = ran(&rt, &["--help"]);
    assert!(rt; help.0 == 0 && help.2.is_empty(), "help failed");
    assert!(rt;
        help.1.as_slice().starts_with(b"Says in words what"),
        "another help"
    );
    let version = ran(&rt, &["--version"]);
    assert!(rt; version.0 == 0 && version.2.is_empty(), "no version");
    assert!(rt;
        version.1.as_slice().starts_with(b"nighthub_explain "),
        "another version"
    );
    Ok(())
}
