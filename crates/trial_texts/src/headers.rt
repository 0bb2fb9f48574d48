//! Headers of interchanges, and ids in their full width.
use crate::texts::{holds, same};
use std::alloc::Global;
use std::test::Fail;
use x12_bytes::{Delims, HEADER_LEN, Header, read_header, without_trailing_spaces};

const DELIMS: Delims = Delims {
    element: b'*',
    component: b'>',
    repetition: Some(b'^'),
    terminator: b'~',
};

const ACME: &[u8] =
    b"ISA*00*          *00*          *01*ACME           *ZZ*HUB            *260228*0900*^*00501*000000007*0*P*>~";

const BOLT: &[u8] =
    b"ISA|00|          |00|          |ZZ|BOLT           |ZZ|HUB            |260228|0915|U|00501|000000003|0|P|:!";

/// A field's number, and what is in it.
const FIELDS: &[(usize, &[u8])] = &[
    (1, b"00"),
    (2, b"          "),
    (5, b"01"),
    (6, b"ACME           "),
    (8, b"HUB            "),
    (9, b"260228"),
    (10, b"0900"),
    (12, b"00501"),
    (13, b"000000007"),
    (15, b"P"),
    (16, b">"),
];

/// An id in its full width, and the id.
const IDS: &[(&[u8], &[u8])] = &[
    (b"ACME           ", b"ACME"),
    (b" A B", b" A B"),
    (b"   ", b""),
];

fn expect_field(alloc: Global, header: &Header, field: &(usize, &[u8])) -> Result<(), Fail> {
    let (k, wanted) = *field;
    if k < 1 || 16 < k {
        return Err("no such field".into());
    }
    same(alloc, header.field(k), wanted)
}

fn expect_fields(alloc: Global, header: &Header, fields: &[(usize, &[u8])]) -> Result<(), Fail> {
    for field in fields {
        expect_field(alloc, header, field)?;
    }
    Ok(())
}

#[test]
fn reads_a_header(rt: HostRuntime) -> Result<(), Fail> {
    assert!(rt; ACME.len() == HEADER_LEN);
    let Some(header) = read_header(ACME, 0) else {
        return Err("no header".into());
    };
    expect_fields(rt.alloc(), &header, FIELDS)
}

/// Whether a text begins with a header that has these delimiters.
fn has_delims(text: &[u8], delims: Delims) -> bool {
    match read_header(text, 0) {
        None => false,
        Some(header) => header.delims() == delims,
    }
}

#[test]
fn reads_the_delimiters() -> Result<(), Fail> {
    holds(has_delims(ACME, DELIMS), "other delimiters")
}

/// Whether a text begins with a header that separates no repetitions and ends segments so.
fn separates_none(text: &[u8], terminator: u8) -> bool {
    match read_header(text, 0) {
        None => false,
        Some(header) => {
            let delims = header.delims();
            delims.repetition.is_none() && delims.terminator == terminator
        }
    }
}

#[test]
fn a_letter_separates_no_repetitions() -> Result<(), Fail> {
    holds(separates_none(BOLT, b'!'), "other delimiters")
}

fn has_header(text: &[u8], start: usize) -> bool {
    read_header(text, start).is_some()
}

#[test]
fn reads_none_elsewhere() -> Result<(), Fail> {
    let is_elsewhere = has_header(ACME, 1) || has_header(ACME, usize::MAX);
    let is_cut_off = has_header(&ACME[..105], 0) || has_header(b"", 0);
    holds(!is_elsewhere && !is_cut_off, "a header")
}

fn expect_ids(alloc: Global, ids: &[(&[u8], &[u8])]) -> Result<(), Fail> {
    for (text, id) in ids {
        same(alloc, without_trailing_spaces(text), id)?;
    }
    Ok(())
}

#[test]
fn cuts_spaces_at_the_end(rt: HostRuntime) -> Result<(), Fail> {
    expect_ids(rt.alloc(), IDS)
}
