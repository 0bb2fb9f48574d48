//! The text of a sample: its segments in the envelopes of an interchange, a segment a line.
use crate::build::Piece;
use guide_tree::{GuideHead, GuideRows};
use hub_kinds::{NoMemory, Text};
use itoa::Buffer;
use std::alloc::Global;

/// The header of the interchange (X12.5, ISA).
const HEADER: &[u8] =
    b"ISA*00*          *00*          *ZZ*SUPPLIER       *ZZ*HUB            *260301*1015*^*00501*000000001*0*T*>~\n";

/// A change of a sample's segments.
#[derive(Drop)]
pub(crate) enum Change {
    /// A segment is written before the piece with an index.
    Before(usize, Vec<u8>),
    /// A segment is written in place of the piece with an index.
    Instead(usize, Vec<u8>),
    /// The pieces with an index from the first to before the second are left out.
    Without(usize, usize),
    /// The pieces with an index from the first to before the second are written again, that many times.
    Again(usize, usize, u32),
}

/// Writes a segment and its end.
fn append_line(out: &mut Vec<u8>, segment: &[u8]) -> Result<(), NoMemory> {
    out.extend_from_slice(segment)?;
    out.extend_from_slice(b"~\n")?;
    Ok(())
}

/// How many texts there are up to the last that isn't empty.
fn used(texts: &[Vec<u8>]) -> usize {
    let mut count = 0;
    for k in 0..texts.len() {
        if !texts[k].is_empty() {
            count = k + 1;
        }
    }
    count
}

/// Writes a segment without its end.
pub(crate) fn append_segment(
    out: &mut Vec<u8>,
    id: &[u8],
    texts: &[Vec<u8>],
) -> Result<(), NoMemory> {
    out.extend_from_slice(id)?;
    for k in 0..used(texts) {
        out.push(b'*')?;
        if let Some(text) = texts.get(k) {
            out.extend_from_slice(text.as_slice())?;
        }
    }
    Ok(())
}

fn append_piece(out: &mut Vec<u8>, piece: &Piece) -> Result<(), NoMemory> {
    append_segment(out, piece.slot.id.as_slice(), piece.texts.as_slice())?;
    append_line(out, b"")
}

fn append_pieces(out: &mut Vec<u8>, pieces: &[Piece]) -> Result<(), NoMemory> {
    for piece in pieces {
        append_piece(out, piece)?;
    }
    Ok(())
}

/// Writes what changes put before the piece with an index.
fn append_before(out: &mut Vec<u8>, changes: &[Change], index: usize) -> Result<(), NoMemory> {
    for change in changes {
        if let Change::Before(at, segment) = change
            && *at == index
        {
            append_line(out, segment.as_slice())?;
        }
    }
    Ok(())
}

/// Writes pieces that many times.
fn append_again(out: &mut Vec<u8>, pieces: &[Piece], times: u32) -> Result<(), NoMemory> {
    for _ in 0..times {
        append_pieces(out, pieces)?;
    }
    Ok(())
}

/// Writes what changes put after the piece with an index.
fn append_after(
    out: &mut Vec<u8>,
    pieces: &[Piece],
    changes: &[Change],
    index: usize,
) -> Result<(), NoMemory> {
    for change in changes {
        if let Change::Again(from, to, times) = change
            && *from <= *to
            && *to <= pieces.len()
            && *to == index.saturating_add(1)
        {
            append_again(out, &pieces[*from..*to], *times)?;
        }
    }
    Ok(())
}

/// Writes the piece with an index, unless changes leave it out.
fn append_changed(
    out: &mut Vec<u8>,
    piece: &Piece,
    changes: &[Change],
    index: usize,
) -> Result<(), NoMemory> {
    for change in changes {
        match change {
            Change::Instead(at, segment) if *at == index => {
                return append_line(out, segment.as_slice());
            }
            Change::Without(from, to) if *from <= index && index < *to => return Ok(()),
            _ => {}
        }
    }
    append_piece(out, piece)
}

/// The text of the segments of a set between ST and SE.
fn body_of(alloc: Global, pieces: &[Piece], changes: &[Change]) -> Result<Vec<u8>, NoMemory> {
    let mut out = Vec::new(alloc);
    for k in 0..pieces.len() {
        append_before(&mut out, changes, k)?;
        append_changed(&mut out, &pieces[k], changes, k)?;
        append_after(&mut out, pieces, changes, k)?;
    }
    append_before(&mut out, changes, pieces.len())?;
    Ok(out)
}

/// Writes GS and ST.
fn append_front(out: &mut Vec<u8>, head: &GuideHead) -> Result<(), NoMemory> {
    out.extend_from_slice(HEADER)?;
    out.extend_from_slice(b"GS*")?;
    out.extend_from_slice(head.group.as_slice())?;
    out.extend_from_slice(b"*SUPPLIER*HUB*20260301*1015*1*X*")?;
    append_line(out, head.version.as_slice())?;
    out.extend_from_slice(b"ST*")?;
    out.extend_from_slice(head.set.as_slice())?;
    out.extend_from_slice(b"*0001")?;
    if let Some(convention) = &head.convention {
        out.push(b'*')?;
        out.extend_from_slice(convention.as_slice())?;
    }
    append_line(out, b"")
}

/// Writes SE, GE and IEA after a body of that many segments.
fn append_back(out: &mut Vec<u8>, segments: usize) -> Result<(), NoMemory> {
    let mut digits = Buffer::new();
    out.extend_from_slice(b"SE*")?;
    out.extend_from_slice(digits.format(segments.saturating_add(2)).as_bytes())?;
    out.extend_from_slice(b"*0001~\nGE*1*1~\nIEA*1*000000001~\n")?;
    Ok(())
}

/// The text of a sample with changes.
pub(crate) fn text_of(
    alloc: Global,
    rows: &GuideRows,
    pieces: &[Piece],
    changes: &[Change],
) -> Result<Text, NoMemory> {
    let body = body_of(alloc, pieces, changes)?;
    let segments = body.iter().filter(|byte| **byte == b'~').count();
    let mut out = Vec::new(alloc);
    append_front(&mut out, &rows.head)?;
    out.extend_from_slice(body.as_slice())?;
    append_back(&mut out, segments)?;
    Ok(Text::from_vec(out))
}
