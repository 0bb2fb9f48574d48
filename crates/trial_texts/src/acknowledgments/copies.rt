//! What is shown of a text in error.
use super::faults::tells;
use super::samples::{DELIMS, ElemRow, FaultRow};
use hub_kinds::{ElementCode, NoMemory, SegmentCode};
use std::alloc::Global;
use std::test::Fail;
use x12_bytes::Delims;

/// 99 letters A.
const LONG: &[u8] =
    b"AAAAAAAAAAAAAAAAAAAAAAAAAAAAAAAAAAAAAAAAAAAAAAAAAAAAAAAAAAAAAAAAAAAAAAAAAAAAAAAAAAAAAAAAAAAAAAAAAAA";

/// A text in error, and what is shown of it.
const COPIES: &[(&[u8], &[u8])] = &[
    (b" }", b" }"),
    (b"A", b"A"),
    (LONG, LONG),
    (b"", b""),
    (b"A*B", b""),
    (b"A>B", b""),
    (b"A^B", b""),
    (b"A~B", b""),
    (b"A\x7F", b""),
    (b"\x80A", b""),
    (b"A\x1FB", b""),
];

/// A byte after 99 letters A, and what is shown of these 100 bytes.
const LAST_BYTES: &[(u8, &[u8])] = &[(b'B', LONG), (b'>', b"")];

/// An element that is too long.
fn too_long(copy: &[u8]) -> FaultRow<'_> {
    FaultRow {
        position: 3,
        id: b"REF",
        loop_id: b"",
        code: SegmentCode::ElementErrors,
        elem: Some(ElemRow {
            numbers: [2, 0, 0],
            code: ElementCode::TooLong,
            reference: b"352",
            copy,
        }),
    }
}

/// What is reported of an element that is too long, of which this is shown.
fn note_that_shows(alloc: Global, shown: &[u8]) -> Result<Vec<u8>, NoMemory> {
    let mut note = Vec::from_slice(alloc, b"IK3*REF*3**8~IK4*2*352*5")?;
    if !shown.is_empty() {
        note.push(b'*')?;
    }
    note.extend_from_slice(shown)?;
    note.push(b'~')?;
    Ok(note)
}

/// What is written of an element that is too long and has this text.
fn tells_text(alloc: Global, copy: &[u8], shown: &[u8]) -> Result<(), Fail> {
    let wanted = note_that_shows(alloc, shown)?;
    tells(alloc, &DELIMS, &[too_long(copy)], wanted.as_slice())
}

fn tells_texts(alloc: Global, cases: &[(&[u8], &[u8])]) -> Result<(), Fail> {
    for (copy, shown) in cases {
        tells_text(alloc, copy, shown)?;
    }
    Ok(())
}

#[test]
fn copies_what_prints_and_is_no_delimiter(rt: HostRuntime) -> Result<(), Fail> {
    tells_texts(rt.alloc(), COPIES)
}

/// 99 letters A and this byte.
fn long_and(alloc: Global, last: u8) -> Result<Vec<u8>, NoMemory> {
    let mut letters = Vec::from_slice(alloc, LONG)?;
    letters.push(last)?;
    Ok(letters)
}

fn tells_long(alloc: Global, last: u8, shown: &[u8]) -> Result<(), Fail> {
    let letters = long_and(alloc, last)?;
    tells_text(alloc, letters.as_slice(), shown)
}

fn tells_each_long(alloc: Global, cases: &[(u8, &[u8])]) -> Result<(), Fail> {
    for (last, shown) in cases {
        tells_long(alloc, *last, shown)?;
    }
    Ok(())
}

#[test]
fn judges_the_whole_text_before_it_is_cut(rt: HostRuntime) -> Result<(), Fail> {
    tells_each_long(rt.alloc(), LAST_BYTES)
}

const NO_REPETITION_SEPARATOR: Delims = Delims {
    repetition: None,
    ..DELIMS
};

#[test]
fn copies_a_caret_where_nothing_repeats(rt: HostRuntime) -> Result<(), Fail> {
    let faults = [too_long(b"A^B")];
    let wanted = b"IK3*REF*3**8~IK4*2*352*5*A^B~";
    tells(rt.alloc(), &NO_REPETITION_SEPARATOR, &faults, wanted)
}
