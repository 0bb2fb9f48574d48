ghost use Rattle.std.specs.Prelude.{◌≡◌, ◌++◌, OnOk};
ghost use Rattle.breach_lines.specs.Lines as lines;

use crate::words::{append_line, append_named, append_night, append_text};
use hub_kinds::NoMemory;
use night_marks::{BadFile, BrokenLink, FileState, NightFile};
use std::alloc::Global;

fn append_link_words(out: &mut Vec<u8>, link: &BrokenLink<'_>) -> Result<(), NoMemory>
    ensures { OnOk result (out.new.items ≡ out.old.items ++ lines.link_words link.now) }
{
    append_night(out, link.night.bytes())?;
    append_named(out, "from/before names ", &link.named)?;
    append_named(out, ", and the night before it is ", &link.before)
}

/// Appends the line on a night that doesn't name the night before it.
fn append_link(alloc: Global, out: &mut Vec<u8>, link: &BrokenLink<'_>) -> Result<(), NoMemory>
    ensures { OnOk result (out.new.items ≡ out.old.items ++ lines.line_of (lines.link_words link.now)) }
{
    let mut words = Vec::new(alloc);
    append_link_words(&mut words, link)?;
    append_line(out, words.as_slice())
}

/// Appends a line for each night that doesn't name the night before it.
pub(crate) fn append_links(
    alloc: Global,
    out: &mut Vec<u8>,
    links: &[BrokenLink<'_>],
) -> Result<(), NoMemory>
    ensures { OnOk result (out.new.items ≡ out.old.items ++ lines.link_lines links.now) }
{
    for i in 0..links.len() {
        append_link(alloc, out, &links[i])?;
    }
    Ok(())
}

fn file_name(file: NightFile) -> &'static str
    ensures { result.now ≡ lines.file_name file }
{
    match file {
        NightFile::Moment => "from/at",
        NightFile::Setup => "from/setup.toml",
        NightFile::Counters => "from/counters.toml",
        NightFile::NextCounters => "out/counters.toml",
        NightFile::Sums => "sums",
        NightFile::Track => "track.csv",
        NightFile::Input => "from/in.x12",
        NightFile::InputSum => "from/in.sum",
        NightFile::Again => "from/again.csv",
        NightFile::Out => "out",
        NightFile::Delivered => "delivered.csv",
        NightFile::Addresses => "addresses.csv",
    }
}

fn state_words(state: FileState) -> &'static str
    ensures { result.now ≡ lines.state_words state }
{
    match state {
        FileState::Unread => " can't be read",
        FileState::Wrong => " isn't what the night had",
    }
}

fn append_bad_words(out: &mut Vec<u8>, bad: &BadFile) -> Result<(), NoMemory>
    ensures { OnOk result (out.new.items ≡ out.old.items ++ lines.bad_words bad.now) }
{
    append_night(out, bad.night.as_slice())?;
    append_text(out, file_name(bad.file))?;
    append_text(out, state_words(bad.state))
}

/// Appends the line on a file that isn't what a night leaves.
fn append_bad(alloc: Global, out: &mut Vec<u8>, bad: &BadFile) -> Result<(), NoMemory>
    ensures { OnOk result (out.new.items ≡ out.old.items ++ lines.line_of (lines.bad_words bad.now)) }
{
    let mut words = Vec::new(alloc);
    append_bad_words(&mut words, bad)?;
    append_line(out, words.as_slice())
}

/// Appends a line for each file that isn't what a night leaves.
pub(crate) fn append_bad_files(
    alloc: Global,
    out: &mut Vec<u8>,
    bad: &[BadFile],
) -> Result<(), NoMemory>
    ensures { OnOk result (out.new.items ≡ out.old.items ++ lines.bad_lines bad.now) }
{
    for i in 0..bad.len() {
        append_bad(alloc, out, &bad[i])?;
    }
    Ok(())
}
