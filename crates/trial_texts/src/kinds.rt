//! Numbers and words, the texts of codes, and lists that are given back.
use crate::texts::{holds, same};
use hub_kinds::{
    Code, ElementCode, GroupCode, GroupVerdict, InterchangeFault, Items, Lent, SegmentCode,
    SetCode, Verdict, acknowledgment_code, code_of, code_text, is_alphanumeric, note_text,
    read_number,
};
use std::test::Fail;

/// A text, how many digits it may have, and the number that it writes.
const NUMBERS: &[(&[u8], usize, Option<u64>)] = &[
    (b"0002", 6, Some(2)),
    (b"000000007", 9, Some(7)),
    (b"9999999999", 10, Some(9_999_999_999)),
    (b"", 6, None),
    (b"1234567", 6, None),
    (b"-1", 6, None),
    (b"+1", 6, None),
    (b"1 ", 6, None),
    (b"A", 6, None),
];

/// A text, how many bytes it may have, and whether it is this many letters or digits.
const WORDS: &[(&[u8], usize, usize, bool)] = &[
    (b"005010X231", 1, 12, true),
    (b"0001", 4, 4, true),
    (b"0001", 5, 9, false),
    (b"PO-1", 1, 9, false),
    (b"\xC4A", 1, 9, false),
];

fn writes_number(case: &(&[u8], usize, Option<u64>)) -> bool {
    let (text, most, number) = *case;
    most <= 19 && read_number(text, most) == number
}

fn write_numbers(cases: &[(&[u8], usize, Option<u64>)]) -> bool {
    for case in cases {
        if !writes_number(case) {
            return false;
        }
    }
    true
}

#[test]
fn reads_numbers() -> Result<(), Fail> {
    holds(write_numbers(NUMBERS), "another number")
}

fn are_words(cases: &[(&[u8], usize, usize, bool)]) -> bool {
    for (text, least, most, is) in cases {
        if is_alphanumeric(text, *least, *most) != *is {
            return false;
        }
    }
    true
}

#[test]
fn tells_letters_and_digits() -> Result<(), Fail> {
    holds(are_words(WORDS), "otherwise so many letters or digits")
}

/// Whether this is the text of the code, and the code is read back from it.
fn is_text_of<C: Code + PartialEq>(text: &str, code: C) -> bool {
    code_text(code) == text && code_of(text.as_bytes()) == Some(code)
}

fn are_texts_of_verdicts() -> bool {
    is_text_of("E", Verdict::AcceptedWithErrors) && is_text_of("P", GroupVerdict::PartlyAccepted)
}

#[test]
fn writes_codes_and_reads_them_back() -> Result<(), Fail> {
    let are_written = is_text_of("4", SegmentCode::LoopTooOften)
        && is_text_of("12", ElementCode::TooManyRepetitions)
        && is_text_of("23", SetCode::ControlNumberNotUnique)
        && is_text_of("19", GroupCode::ControlNumberNotUnique)
        && is_text_of("8", InterchangeFault::SenderUnknown);
    holds(are_written && are_texts_of_verdicts(), "another text")
}

/// A fault of an interchange or none, and what a TA1 reports of it: TA104 and TA105; nothing of those that are never answered.
const NOTES: &[(Option<InterchangeFault>, Option<(&str, &str)>)] = &[
    (None, Some(("A", "000"))),
    (Some(InterchangeFault::TrailerMissing), Some(("R", "023"))),
    (Some(InterchangeFault::ControlNumberInvalid), None),
    (
        Some(InterchangeFault::ControlNumbersDiffer),
        Some(("R", "001")),
    ),
    (Some(InterchangeFault::GroupCountWrong), Some(("R", "021"))),
    (Some(InterchangeFault::SegmentMisplaced), Some(("R", "022"))),
    (
        Some(InterchangeFault::GroupHeaderInvalid),
        Some(("R", "024")),
    ),
    (Some(InterchangeFault::SetHeaderInvalid), Some(("R", "024"))),
    (Some(InterchangeFault::SenderUnknown), None),
    (Some(InterchangeFault::Duplicate), Some(("R", "025"))),
];

/// Whether this is reported of a fault, or of none.
fn is_told(fault: Option<InterchangeFault>, wanted: Option<(&str, &str)>) -> bool {
    match (note_text(fault), wanted) {
        (None, None) => true,
        (Some(note), Some((code, text))) => note == text && acknowledgment_code(note) == code,
        _ => false,
    }
}

fn are_told(cases: &[(Option<InterchangeFault>, Option<(&str, &str)>)]) -> bool {
    for (fault, wanted) in cases {
        if !is_told(*fault, *wanted) {
            return false;
        }
    }
    true
}

#[test]
fn gives_the_note_of_each_fault() -> Result<(), Fail> {
    holds(are_told(NOTES), "another note")
}

/// Texts that no segment code has.
const NO_CODES: &[&[u8]] = &[b"", b"9", b"08", b"i4", b"I44"];

fn are_no_codes(texts: &[&[u8]]) -> bool {
    for text in texts {
        if code_of::<SegmentCode>(text).is_some() {
            return false;
        }
    }
    true
}

#[test]
fn reads_no_other_text_as_a_code() -> Result<(), Fail> {
    holds(are_no_codes(NO_CODES), "a code")
}

#[test]
fn gives_the_list_back(rt: HostRuntime) -> Result<(), Fail> {
    same(rt.alloc(), Lent::new(b"ACME").bytes(), b"ACME")?;
    let items = Items::from_vec(Vec::from_slice(rt.alloc(), b"ACME")?);
    holds(items.as_slice() == b"ACME".as_slice(), "another list")?;
    same(rt.alloc(), items.into_vec().as_slice(), b"ACME")
}
