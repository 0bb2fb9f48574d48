ghost use Rattle.std.specs.Prelude.{◌≡◌, IfOk};
ghost use Rattle.csv.specs.Records.{fields_of};
ghost use Rattle.night_search.specs.Lines as lines;
ghost use Rattle.night_page.specs.Page as page;
ghost use Rattle.night_page.specs.Rows as rows;

use csv::ByteRecord;
use csv_fields::columns::{
    DOCUMENT, FAULT, GS01, GS06, INTERCHANGE, ISA13, OFFSET, OUTCOME, SENDER, ST01, ST02,
};
use hub_kinds::NoMemory;
use night_search::{append_outcome, append_parts};
use std::alloc::Global;
use track_read::field;

pub(crate) fn has_outcome(row: &ByteRecord, words: &[u8]) -> bool
    ensures { result ≡ rows.has_outcome words.now (fields_of row.now) }
{
    field(row, OUTCOME) == words
}

pub(crate) fn is_delivered(row: &ByteRecord) -> bool
    ensures { result ≡ rows.is_delivered (fields_of row.now) }
{
    has_outcome(row, b"delivered")
}

pub(crate) fn is_refused(row: &ByteRecord) -> bool
    ensures { result ≡ rows.is_refused (fields_of row.now) }
{
    has_outcome(row, b"refused")
}

pub(crate) fn is_rejected(row: &ByteRecord) -> bool
    ensures { result ≡ page.is_rejected (fields_of row.now) }
{
    has_outcome(row, b"rejected")
}

pub(crate) fn is_held(row: &ByteRecord) -> bool
    ensures { result ≡ page.is_held (fields_of row.now) }
{
    has_outcome(row, b"held route") || has_outcome(row, b"held delimiter")
}

/// Parts of a text, one after another.
pub(crate) fn words_of(alloc: Global, parts: &[&[u8]]) -> Result<Vec<u8>, NoMemory>
    ensures { IfOk result (λ words. words.items ≡ lines.joined (lines.read parts.now)) }
{
    let mut words = Vec::new(alloc);
    append_parts(&mut words, parts)?;
    Ok(words)
}

/// GS01 and GS06 of `row`.
pub(crate) fn group_words(alloc: Global, row: &ByteRecord) -> Result<Vec<u8>, NoMemory>
    ensures { IfOk result (λ words. words.items ≡ rows.group_words (fields_of row.now)) }
{
    words_of(alloc, &[field(row, GS01), b" ", field(row, GS06)])
}

fn outcome_words(alloc: Global, row: &ByteRecord) -> Result<Vec<u8>, NoMemory>
    ensures { IfOk result (λ words. words.items ≡ lines.outcome_words (fields_of row.now)) }
{
    let mut words = Vec::new(alloc);
    append_outcome(&mut words, row)?;
    Ok(words)
}

/// The outcome of `row`, or that its interchange is refused, and why.
pub(crate) fn end_words(alloc: Global, row: &ByteRecord) -> Result<Vec<u8>, NoMemory>
    ensures { IfOk result (λ words. words.items ≡ rows.end_words (fields_of row.now)) }
{
    if is_refused(row) {
        words_of(alloc, &[b"its interchange is refused: ", field(row, FAULT)])
    } else {
        outcome_words(alloc, row)
    }
}

fn set_words(alloc: Global, row: &ByteRecord) -> Result<Vec<u8>, NoMemory>
    ensures { IfOk result (λ words. words.items ≡ rows.set_words (fields_of row.now)) }
{
    words_of(
        alloc,
        &[
            field(row, ST01),
            b" ",
            field(row, DOCUMENT),
            b" from ",
            field(row, SENDER),
            b", ISA13 ",
            field(row, ISA13),
            b", GS06 ",
            field(row, GS06),
            b", ST02 ",
            field(row, ST02),
        ],
    )
}

/// Which interchange, or which set of whom, `row` is about.
pub(crate) fn subject_words(alloc: Global, row: &ByteRecord) -> Result<Vec<u8>, NoMemory>
    ensures { IfOk result (λ words. words.items ≡ rows.subject_words (fields_of row.now)) }
{
    if is_refused(row) {
        words_of(
            alloc,
            &[
                b"interchange ",
                field(row, INTERCHANGE),
                b" at byte ",
                field(row, OFFSET),
            ],
        )
    } else {
        set_words(alloc, row)
    }
}
