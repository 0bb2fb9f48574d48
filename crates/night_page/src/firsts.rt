ghost use Rattle.std.specs.Prelude.{◌≡◌, ◌++◌, ◌∷◌, [], IfOk, OnOk, if◌then◌else◌, map};
ghost use Rattle.std.specs.List.{list_all};
ghost use Rattle.csv.specs.Records.{fields_of};
ghost use Rattle.night_page.specs.Totals as totals;

use csv::ByteRecord;
use csv_fields::columns::{GS06, OFFSET, RECEIVER, ST02};
use hub_kinds::NoMemory;
use std::alloc::Global;
use track_read::field;

/// A route has no more receivers than this.
const MOST_RECEIVERS: usize = 16;

fn name_one_set(row: &ByteRecord, other: &ByteRecord) -> bool
    ensures { result ≡ totals.name_one_set (fields_of row.now) (fields_of other.now) }
{
    field(row, OFFSET) == field(other, OFFSET)
        && (field(row, GS06) == field(other, GS06) && field(row, ST02) == field(other, ST02))
}

fn has_receiver(row: &ByteRecord) -> bool
    ensures { result ≡ totals.has_receiver (fields_of row.now) }
{
    !field(row, RECEIVER).is_empty()
}

fn have_two_receivers(row: &ByteRecord, other: &ByteRecord) -> bool
    ensures { result ≡ totals.have_two_receivers (fields_of row.now) (fields_of other.now) }
{
    has_receiver(row) && (has_receiver(other) && field(row, RECEIVER) != field(other, RECEIVER))
}

fn are_of_one_set(row: &ByteRecord, other: &ByteRecord) -> bool
    ensures { result ≡ totals.are_of_one_set (fields_of row.now) (fields_of other.now) }
{
    name_one_set(row, other) && have_two_receivers(row, other)
}

#[tactic(auto, using(crate::proofs::FirstRows::roomy))]
fn has_room(set: &[ByteRecord]) -> bool
    ensures { result ≡ totals.has_room (map fields_of set.now) }
{
    0 < set.len() && set.len() < MOST_RECEIVERS
}

fn are_with(set: &[ByteRecord], row: &ByteRecord) -> bool
    ensures { result ≡ list_all (λ other. totals.are_of_one_set (fields_of other) (fields_of row.now)) set.now }
{
    set.iter().all(|other| are_of_one_set(other, row))
}

/// Whether `row`, which comes after the rows of `set`, is of this set, too.
fn is_further(set: &[ByteRecord], row: &ByteRecord) -> bool
    ensures { result ≡ totals.is_further (map fields_of set.now) (fields_of row.now) }
{
    has_room(set) && are_with(set, row)
}

fn push_first<'a>(
    found: &mut Vec<&'a ByteRecord>,
    further: bool,
    row: &'a ByteRecord,
) -> Result<(), NoMemory>
    ensures { OnOk result (map (λ row. fields_of row.now) found.new.items
        ≡ map (λ row. fields_of row.now) found.old.items ++ (if further then [] else fields_of row.entry.now ∷ [])) }
{
    if !further {
        found.push(row)?;
    }
    Ok(())
}

/// Where the set of row `i` begins; the set before it begins at `begin`.
fn begin_of(further: bool, begin: usize, i: usize) -> usize
    ensures { result ≡ (if further then begin else i) }
{
    if further { begin } else { i }
}

/// The first row of each set.
pub(crate) fn firsts(alloc: Global, all: &[ByteRecord]) -> Result<Vec<&ByteRecord>, NoMemory>
    ensures { IfOk result (λ found. map (λ row. fields_of row.now) found.items ≡ totals.firsts (map fields_of all.entry.now)) }
{
    let mut found = Vec::new(alloc);
    let mut begin = 0;
    for i in 0..all.len() {
        let row = &all[i];
        let further = is_further(&all[begin..i], row);
        push_first(&mut found, further, row)?;
        begin = begin_of(further, begin, i);
    }
    Ok(found)
}
