ghost use Rattle.std.specs.Prelude.{◌≡◌, ◌==◌, IfOk, decimal, map};
ghost use Rattle.std.specs.List.{count_by};
ghost use Rattle.csv.specs.Records.{fields_of};
ghost use Rattle.night_search.specs.Lines.{read};
ghost use Rattle.night_page.specs.Page.{is_held};
ghost use Rattle.night_page.specs.Rows as rows;
ghost use Rattle.night_page.specs.Totals as totals;

use crate::firsts::firsts;
use crate::rows::{has_outcome, is_refused, is_rejected, words_of};
use crate::sets::{held, refused};
use crate::tags::append_number;
use csv::ByteRecord;
use hub_kinds::NoMemory;
use std::alloc::{AllocError, Global};

/// The places of words in the last line of a report, counted from 0.
const INTERCHANGES: usize = 2;

const GROUPS: usize = 6;

const OUTSIDE: usize = 14;

/// Whether `row` is about a set that a report counts.
fn is_counted(row: &ByteRecord) -> bool
    ensures { result ≡ totals.is_counted (fields_of row.now) }
{
    !(is_refused(row) || has_outcome(row, b"listed"))
}

fn is_accepted(row: &ByteRecord) -> bool
    ensures { result ≡ totals.is_accepted (fields_of row.now) }
{
    is_counted(row) && !is_rejected(row)
}

/// How many of `firsts` are about sets that a report counts.
fn counted(firsts: &[&ByteRecord]) -> usize
    ensures { result ≡ count_by (λ row. totals.is_counted (fields_of row.now)) firsts.now }
{
    let mut count = 0;
    for row in firsts {
        if is_counted(row) {
            count += 1;
        }
    }
    count
}

/// How many of `firsts` are about accepted sets.
fn accepted(firsts: &[&ByteRecord]) -> usize
    ensures { result ≡ count_by (λ row. totals.is_accepted (fields_of row.now)) firsts.now }
{
    let mut count = 0;
    for row in firsts {
        if is_accepted(row) {
            count += 1;
        }
    }
    count
}

fn number_text(alloc: Global, number: usize) -> Result<Vec<u8>, NoMemory>
    ensures { IfOk result (λ text. text.items ≡ decimal number) }
{
    let mut text = Vec::new(alloc);
    append_number(&mut text, number as u64)?;
    Ok(text)
}

fn refused_text(alloc: Global, all: &[ByteRecord]) -> Result<Vec<u8>, NoMemory>
    ensures { IfOk result (λ text. text.items ≡ decimal (count_by rows.is_refused (map fields_of all.now))) }
{
    number_text(alloc, refused(all))
}

fn held_text(alloc: Global, all: &[ByteRecord]) -> Result<Vec<u8>, NoMemory>
    ensures { IfOk result (λ text. text.items ≡ decimal (count_by is_held (map fields_of all.now))) }
{
    number_text(alloc, held(all))
}

fn counted_text(alloc: Global, firsts: &[&ByteRecord]) -> Result<Vec<u8>, NoMemory>
    ensures { IfOk result (λ text. text.items ≡ decimal (count_by totals.is_counted (map (λ row. fields_of row.now) firsts.now))) }
{
    number_text(alloc, counted(firsts))
}

fn accepted_text(alloc: Global, firsts: &[&ByteRecord]) -> Result<Vec<u8>, NoMemory>
    ensures { IfOk result (λ text. text.items ≡ decimal (count_by totals.is_accepted (map (λ row. fields_of row.now) firsts.now))) }
{
    number_text(alloc, accepted(firsts))
}

/// The last line of a report with the totals of the rows `all`, and those of its `words` that say what no row does.
fn total_text(alloc: Global, words: &[&[u8]], all: &[ByteRecord]) -> Result<Vec<u8>, NoMemory>
    ensures { IfOk result (λ text. text.items ≡ totals.total_text (totals.word (read words.now) 2) (totals.word (read words.now) 6)
        (totals.word (read words.now) 14) (map fields_of all.now)) }
{
    let firsts = firsts(alloc, all)?;
    let refused = refused_text(alloc, all)?;
    let counted = counted_text(alloc, firsts.as_slice())?;
    let accepted = accepted_text(alloc, firsts.as_slice())?;
    let held = held_text(alloc, all)?;
    words_of(
        alloc,
        &[
            b"total interchanges ",
            word(words, INTERCHANGES),
            b" refused ",
            refused.as_slice(),
            b" groups ",
            word(words, GROUPS),
            b" sets ",
            counted.as_slice(),
            b" accepted ",
            accepted.as_slice(),
            b" held ",
            held.as_slice(),
            b" outside ",
            word(words, OUTSIDE),
        ],
    )
}

fn words_in(alloc: Global, line: &[u8]) -> Result<Vec<&[u8]>, AllocError>
    ensures { IfOk result (λ words. read words.items ≡ totals.words_in line.entry.now) }
{
    line.split(|byte| *byte == b' ').collect(alloc)
}

/// Word `n` of a line, counted from 0; empty if it has fewer.
fn word<'a>(words: &[&'a [u8]], n: usize) -> &'a [u8]
    ensures { result.now ≡ totals.word (read words.now) n }
{
    match words.get(n) {
        None => b"",
        Some(word) => word,
    }
}

/// Whether `all`, the rows of a night's table, give the totals in `line`, the last one of its report. The only error is out of memory.
pub fn gives_totals(alloc: Global, line: &[u8], all: &[ByteRecord]) -> Result<bool, NoMemory>
    ensures { IfOk result (λ gives. gives ≡ totals.gives_totals line.now (map fields_of all.now)) }
{
    let words = words_in(alloc, line)?;
    let text = total_text(alloc, words.as_slice(), all)?;
    Ok(line == text.as_slice())
}
