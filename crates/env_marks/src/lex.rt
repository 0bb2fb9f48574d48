ghost use Rattle.std.specs.Prelude.{◌≡◌, ◌+◌, ◌<◌, ◌≤◌, ◌++◌, ◌^◌, not, map, slice_range, length, IfOk, OnOk};
ghost use Rattle.std.specs.List.{prefix_len};
ghost use Rattle.memchr.specs.Find.{IsFirstByte, is_byte};
ghost use Rattle.x12_bytes.specs.Bytes.{is_line_end};
ghost use Rattle.x12_segs.specs.Words.{parts, part_at, segs_of};
ghost use Rattle.env_marks.specs.Frags.{frag_of, id_stop, is_other_than, stop_at};
ghost use Rattle.env_marks.specs.Marking.{mark_of, last_of, marks_of};

use crate::frag::{Frag, Mark};
use crate::marks::Marks;
use hub_kinds::NoMemory;
use std::alloc::Global;
use x12_bytes::{Pair, Piece};
use x12_segs::{find_byte, find_near, lead};

/// How many bytes short segments have. Room for the marks of that many is taken at once; where there are more, more is taken.
const SEGMENT: usize = 16;

/// How many bytes most ids have at most, with the separator after them.
const SHORT: usize = 4;

/// How many bytes are before the first element separator.
fn id_len(bytes: &[u8], element: u8) -> usize
    ensures value { result ≡ prefix_len (is_other_than element) bytes.now }
    ensures bound { result ≤ length bytes.now }
{
    find_short(element, bytes).unwrap_or(bytes.len())
}

/// The offset of the first byte of this value: most ids have two or three bytes, so that these are looked at first.
fn find_short(byte: u8, bytes: &[u8]) -> Option<usize>
    ensures { IsFirstByte (is_byte byte) bytes.now result }
{
    if bytes.len() >= SHORT {
        for at in 0..SHORT {
            if bytes[at] == byte {
                return Some(at);
            }
        }
    }
    find_byte(byte, bytes)
}

/// Where a stretch has its first byte other than CR and LF.
fn body_at(bytes: &[u8], at: usize) -> Option<usize>
    requires { at + length bytes.now < 2 ^ 64 }
    ensures { result ≡ stop_at is_line_end at bytes.now }
{
    let lead = lead(bytes);
    if lead == bytes.len() {
        return None;
    }
    Some(at + lead)
}

/// Where a stretch has its first element separator.
fn separator_at(bytes: &[u8], at: usize, element: u8) -> Option<usize>
    requires { at + length bytes.now < 2 ^ 64 }
    ensures { result ≡ stop_at (is_other_than element) at bytes.now }
{
    let len = id_len(bytes, element);
    if len == bytes.len() {
        return None;
    }
    Some(at + len)
}

/// Where it has the first after the CR and LF at its front.
fn id_end_at(bytes: &[u8], at: usize, element: u8) -> Option<usize>
    requires { at + length bytes.now < 2 ^ 64 }
    ensures { result ≡ id_stop element at bytes.now }
{
    let lead = lead(bytes);
    separator_at(&bytes[lead..], at + lead, element)
}

/// A stretch of a text, by its offsets.
fn frag_of(bytes: &[u8], at: usize, element: u8) -> Frag
    requires { at + length bytes.now < 2 ^ 64 }
    ensures { result ≡ frag_of element at bytes.now }
{
    Frag {
        from: at,
        to: at + bytes.len(),
        body: body_at(bytes, at),
        separator: separator_at(bytes, at, element),
        id_end: id_end_at(bytes, at, element),
    }
}

/// Adds the segment that a part is, if it is one.
fn push_part(list: &mut Vec<Mark>, part: &[u8], at: usize, element: u8) -> Result<(), NoMemory>
    requires { at + length part.now < 2 ^ 64 }
    ensures { OnOk result (list.new.items ≡ list.old.items ++ map (mark_of element) (part_at at part.now)) }
{
    let lead = lead(part);
    if lead == part.len() {
        return Ok(());
    }
    let start = at + lead;
    let mark = Mark {
        start,
        end: at + part.len(),
        id_end: start + id_len(&part[lead..], element),
    };
    list.push(mark)?;
    Ok(())
}

/// The segments from one offset, after a terminator, up to another, and where what follows the last terminator begins.
fn list_marks(
    alloc: Global,
    text: &[u8],
    from: usize,
    to: usize,
    pair: Pair,
) -> Result<(Vec<Mark>, usize), NoMemory>
    requires order { from ≤ to }
    requires within { to ≤ length text.now }
    ensures list { IfOk result
        (λ r. r.0.items ≡ map (mark_of pair.element) (segs_of from (parts pair.terminator (slice_range text.now from to)))) }
    ensures last { IfOk result (λ r. frag_of pair.element r.1 (slice_range text.now r.1 to)
        ≡ last_of pair.element from (parts pair.terminator (slice_range text.now from to))) }
    ensures inside { IfOk result (λ r. r.1 ≤ to) }
{
    let mut list = Vec::with_capacity(alloc, (to - from) / SEGMENT)?;
    let mut at = from;
    while let Some(len) = find_near(pair.terminator, &text[at..to]) {
        push_part(&mut list, &text[at..at + len], at, pair.element)?;
        at += len + 1;
    }
    Ok((list, at))
}

/// The marks of a piece of a text, under a pair, whatever the text is divided by there (X12.6, segment and segment terminator).
/// The only error is out of memory.
pub fn marks_of(alloc: Global, text: &[u8], piece: Piece, pair: Pair) -> Result<Marks, NoMemory>
    requires order { piece.from ≤ piece.to }
    requires within { piece.to ≤ length text.now }
    ensures { IfOk result (λ marks. marks ≡ marks_of pair text.now piece.from piece.to) }
{
    let Piece { from, to } = piece;
    let Some(len) = find_near(pair.terminator, &text[from..to]) else {
        return Ok(Marks::uncut(alloc, pair, frag_of(&text[from..to], from, pair.element)));
    };
    let first = frag_of(&text[from..from + len], from, pair.element);
    let (list, at) = list_marks(alloc, text, from + len + 1, to, pair)?;
    let last = frag_of(&text[at..to], at, pair.element);
    Ok(Marks::cut(pair, first, list, last))
}
