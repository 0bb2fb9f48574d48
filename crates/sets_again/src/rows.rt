ghost use Rattle.std.specs.Prelude.{◌≡◌, ◌≤◌, ◌++◌, ◌∷◌, [], Some, IfOk, OnOk, bytes_eq, if◌then◌else◌, length, map, option_map};
ghost use Rattle.std.specs.List.{list_any, prefix_len};
ghost use Rattle.csv.specs.Records.{fields_of};
ghost use Rattle.sets_again.specs.Rows as rows;

use csv::ByteRecord;
use csv_fields::columns::{GS06, OFFSET, OUTCOME, RECEIVER, ST02};
use hub_kinds::NoMemory;
use itoa::Buffer;
use std::alloc::Global;
use track_read::field;

pub(crate) fn gs06(row: &ByteRecord) -> &[u8]
    ensures { result.now ≡ rows.gs06 (fields_of row.entry.now) }
{
    field(row, GS06)
}

pub(crate) fn st02(row: &ByteRecord) -> &[u8]
    ensures { result.now ≡ rows.st02 (fields_of row.entry.now) }
{
    field(row, ST02)
}

pub(crate) fn has_outcome(row: &ByteRecord, words: &[u8]) -> bool
    ensures { result ≡ bytes_eq (rows.outcome (fields_of row.now)) words.now }
{
    field(row, OUTCOME) == words
}

fn has_receiver(row: &ByteRecord) -> bool
    ensures { result ≡ rows.has_receiver (fields_of row.now) }
{
    !field(row, RECEIVER).is_empty()
}

fn is_refused(row: &ByteRecord) -> bool
    ensures { result ≡ rows.is_refused (fields_of row.now) }
{
    has_outcome(row, b"refused")
}

fn is_some_refused(all: &[ByteRecord]) -> bool
    ensures { result ≡ list_any (λ row. rows.is_refused (fields_of row)) all.now }
{
    all.iter().any(is_refused)
}

/// Whether `all` are about an interchange that is refused.
pub(crate) fn are_refused(all: &[ByteRecord]) -> bool
    ensures { result ≡ rows.are_refused (map fields_of all.now) }
{
    is_some_refused(all)
}

fn begins_at(row: &ByteRecord, offset: &[u8]) -> bool
    ensures { result ≡ bytes_eq (rows.offset (fields_of row.now)) offset.now }
{
    field(row, OFFSET) == offset
}

/// How many rows, from the first one on, have this `offset`.
fn count_with(all: &[ByteRecord], offset: &[u8]) -> usize
    ensures count { result ≡ prefix_len (λ row. bytes_eq (rows.offset (fields_of row)) offset.now) all.now }
    ensures within { result ≤ length all.now }
{
    let mut count = 0;
    while count < all.len() && begins_at(&all[count], offset) {
        count += 1;
    }
    count
}

/// How many rows, from the first one on, are about the interchange that begins at `start`.
pub(crate) fn count_at(all: &[ByteRecord], start: usize) -> usize
    ensures count { result ≡ rows.count_at start (map fields_of all.now) }
    ensures within { result ≤ length all.now }
{
    let mut digits = Buffer::new();
    count_with(all, digits.format(start as u64).as_bytes())
}

fn is_same_set(last: &ByteRecord, row: &ByteRecord) -> bool
    ensures { result ≡ rows.is_further (Some (fields_of last.now)) (fields_of row.now) }
{
    gs06(last) == gs06(row)
        && (st02(last) == st02(row) && (has_receiver(last) && has_receiver(row)))
}

/// Whether `row` is about the set of the row before it, and another receiver.
fn is_further(last: Option<&ByteRecord>, row: &ByteRecord) -> bool
    ensures { result ≡ rows.is_further (option_map (λ r. fields_of r.now) last.entry) (fields_of row.now) }
{
    match last {
        None => false,
        Some(last) => is_same_set(last, row),
    }
}

fn push_first<'a>(
    found: &mut Vec<&'a ByteRecord>,
    last: Option<&ByteRecord>,
    row: &'a ByteRecord,
) -> Result<(), NoMemory>
    ensures { OnOk result (map (λ r. fields_of r.now) found.new.items ≡ map (λ r. fields_of r.now) found.old.items
        ++ (if rows.is_further (option_map (λ r. fields_of r.now) last.entry) (fields_of row.entry.now)
        then [] else fields_of row.entry.now ∷ [])) }
{
    if !is_further(last, row) {
        found.push(row)?;
    }
    Ok(())
}

/// The first row of each set.
pub(crate) fn firsts(alloc: Global, all: &[ByteRecord]) -> Result<Vec<&ByteRecord>, NoMemory>
    ensures { IfOk result (λ found. map (λ r. fields_of r.now) found.items ≡ rows.firsts (map fields_of all.entry.now)) }
{
    let mut found = Vec::new(alloc);
    let mut last = None;
    for i in 0..all.len() {
        push_first(&mut found, last, &all[i])?;
        last = Some(&all[i]);
    }
    Ok(found)
}
