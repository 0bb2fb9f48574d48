ghost use Rattle.std.specs.Prelude.{◌≡◌, ◌==◌, ◌+◌, ◌++◌, ◌∷◌, [], IfOk, OnOk, filter, length, option_map};
ghost use Rattle.std.specs.Char.{is_ascii_digit};
ghost use Rattle.std.specs.List.{list_any, slice_split, suffix_len};
ghost use Rattle.night_search.specs.Lines.{read};
ghost use Rattle.night_page.specs.Files as files;
ghost use Rattle.night_page.specs.Names.{is_filled};

use hub_kinds::NoMemory;
use std::alloc::{AllocError, Global};

/// The parts of `text` between its line feeds.
fn parts_of(alloc: Global, text: &[u8]) -> Result<Vec<&[u8]>, AllocError>
    ensures { IfOk result (λ parts. read parts.items ≡ slice_split (λ b. b == 10) text.entry.now) }
{
    text.split(|byte| *byte == b'\n').collect(alloc)
}

fn push_filled<'a>(lines: &mut Vec<&'a [u8]>, part: &'a [u8]) -> Result<(), NoMemory>
    ensures { OnOk result (read lines.new.items ≡ read lines.old.items ++ filter is_filled (part.entry.now ∷ [])) }
{
    match part {
        [] => Ok(()),
        [..] => Ok(lines.push(part)?),
    }
}

/// Those of `parts` that have a byte.
fn filled<'a>(alloc: Global, parts: &[&'a [u8]]) -> Result<Vec<&'a [u8]>, NoMemory>
    ensures { IfOk result (λ lines. read lines.items ≡ filter is_filled (read parts.now)) }
{
    let mut lines = Vec::new(alloc);
    for part in parts {
        push_filled(&mut lines, part)?;
    }
    Ok(lines)
}

fn lines_in(alloc: Global, text: &[u8]) -> Result<Vec<&[u8]>, NoMemory>
    ensures { IfOk result (λ lines. read lines.items ≡ files.lines_in text.entry.now) }
{
    let parts = parts_of(alloc, text)?;
    filled(alloc, parts.as_slice())
}

/// The lines on the files of the day; none if the night has no such file.
pub(crate) fn lines_of(alloc: Global, text: Option<&[u8]>) -> Result<Vec<&[u8]>, NoMemory>
    ensures { IfOk result (λ lines. read lines.items ≡ files.lines_of (option_map (λ t. t.now) text.entry)) }
{
    match text {
        None => Ok(Vec::new(alloc)),
        Some(text) => lines_in(alloc, text),
    }
}

/// How long `line` is without the digits at its end.
fn before_number(line: &[u8]) -> usize
    ensures { result + suffix_len is_ascii_digit line.now ≡ length line.now }
{
    let mut end = line.len();
    while end > 0 && line[end - 1].is_ascii_digit() {
        end -= 1;
    }
    end
}

fn without_number(line: &[u8]) -> &[u8]
    ensures { result.now ≡ files.without_number line.now }
{
    &line[..before_number(line)]
}

/// Whether `line` is about a file that went in whole.
fn is_whole(line: &[u8]) -> bool
    ensures { result ≡ files.is_whole line.now }
{
    without_number(line).ends_with(b" bytes at ")
        || line.ends_with(b", with the terminator that its end lacked")
}

pub(crate) fn is_short(line: &[u8]) -> bool
    ensures { result ≡ files.is_short line.now }
{
    !is_whole(line)
}

/// Whether a line is about a file that is set aside, or isn't whole.
fn is_some_short(lines: &[&[u8]]) -> bool
    ensures { result ≡ list_any (λ line. files.is_short line.now) lines.now }
{
    lines.iter().any(|line| is_short(line))
}

/// Whether no line is about a file that is set aside, or isn't whole.
pub(crate) fn are_whole(lines: &[&[u8]]) -> bool
    ensures { result ≡ files.are_whole (read lines.now) }
{
    !is_some_short(lines)
}
