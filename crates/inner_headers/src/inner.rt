ghost use Rattle.std.specs.Prelude.{◌≡◌, ◌≤◌, ◌++◌, decimal, length, true, IfOk, OnOk};
ghost use Rattle.hub_kinds.specs.declared.limits.TheConstants.{LONGEST_TEXT};
ghost use Rattle.x12_bytes.specs.HeaderTest.{is_head};
ghost use Rattle.env_index.specs.Extents.{reach_at};
ghost use Rattle.inner_headers.specs.Inner as inner;

use env_index::{IndexedInterchange, Interchange, index_plain};
use hub_kinds::{Items, NoMemory, Text};
use isa_scan::scan_piece;
use itoa::Buffer;
use std::alloc::Global;
use x12_bytes::{HEADER_LEN, Piece};

/// How many headers begin in an interchange of `text` after its own.
fn inner_count(alloc: Global, text: &[u8], interchange: &Interchange<'_>) -> Result<usize, NoMemory>
    requires head { is_head text.now interchange.now.start ≡ true }
    requires end { interchange.now.end ≡ (reach_at text.now interchange.now.start).end }
    ensures { IfOk result (λ count. count ≡ inner.inner_count text.now interchange.now) }
{
    let piece = Piece {
        from: interchange.start() + HEADER_LEN,
        to: interchange.end(),
    };
    let heads = scan_piece(alloc, text, piece)?;
    Ok(heads.list().len())
}

/// Appends some words, and a number after them.
fn append_counted(line: &mut Vec<u8>, words: &[u8], number: usize) -> Result<(), NoMemory>
    ensures { OnOk result (line.new.items ≡ line.old.items ++ (words.now ++ decimal number)) }
{
    let mut digits = Buffer::new();
    line.extend_from_slice(words)?;
    line.extend_from_slice(digits.format(number).as_bytes())?;
    Ok(())
}

/// The line on an interchange, the `number`-th of its text, at the offset `start`, with `count` further headers.
fn line_of(alloc: Global, number: usize, start: usize, count: usize) -> Result<Text, NoMemory>
    ensures { IfOk result (λ line. line ≡ inner.inner_line number start count) }
{
    let mut line = Vec::new(alloc);
    append_counted(&mut line, b"interchange ", number)?;
    append_counted(&mut line, b" at byte ", start)?;
    append_counted(&mut line, b": further headers ", count)?;
    Ok(Items::from_vec(line))
}

/// Adds the line on the `number`-th interchange of `text`, if it has a fault and further headers.
fn push_line(
    alloc: Global,
    lines: &mut Vec<Text>,
    text: &[u8],
    number: usize,
    entry: &IndexedInterchange<'_>,
) -> Result<(), NoMemory>
    requires head { is_head text.now entry.now.interchange.start ≡ true }
    requires end { entry.now.interchange.end ≡ (reach_at text.now entry.now.interchange.start).end }
    ensures { OnOk result (lines.new.items ≡ lines.old.items ++ inner.lines_at text.now number entry.now) }
{
    let interchange = entry.interchange();
    let count = inner_count(alloc, text, interchange)?;
    if entry.fault().is_some() && count != 0 {
        lines.push(line_of(alloc, number, interchange.start(), count)?)?;
    }
    Ok(())
}

/// A line for each interchange of `text` that has one of the faults 1 to 7, and in which further headers begin. The only error is out of
/// memory.
pub fn inner_lines(alloc: Global, text: &[u8]) -> Result<Vec<Text>, NoMemory>
    requires { length text.now ≤ LONGEST_TEXT }
    ensures { IfOk result (λ lines. inner.AreInnerLines text.now lines.items) }
{
    let index = index_plain(alloc, text)?;
    let entries = index.interchanges();
    let mut lines = Vec::new(alloc);
    for i in 0..entries.len() {
        push_line(alloc, &mut lines, text, i + 1, &entries[i])?;
    }
    Ok(lines)
}
