ghost use Rattle.std.specs.Prelude.{◌≡◌, ◌++◌, OnOk, codes, map};
ghost use Rattle.std.specs.List.{count_by, flat_map};
ghost use Rattle.csv.specs.Records.{fields_of};
ghost use Rattle.night_page.specs.Page as page;
ghost use Rattle.night_page.specs.Rows.{is_delivered, is_refused};
ghost use Rattle.night_page.specs.Tags.{count_box};

use crate::rows::{end_words, group_words, is_delivered, is_held, is_refused, is_rejected};
use crate::tags::{append_count, append_fixed, append_table_head, append_table_row};
use csv::ByteRecord;
use csv_fields::columns::{DOCUMENT, ISA13, SENDER, ST01, ST02, VERDICT};
use hub_kinds::NoMemory;
use std::alloc::Global;
use track_read::field;

/// Above so many rows those of deliveries are left out.
const MOST_ROWS: usize = 5_000;

fn delivered(rows: &[ByteRecord]) -> usize
    ensures { result ≡ count_by (λ row. is_delivered (fields_of row)) rows.now }
{
    let mut count = 0;
    for row in rows {
        if is_delivered(row) {
            count += 1;
        }
    }
    count
}

pub(crate) fn held(rows: &[ByteRecord]) -> usize
    ensures { result ≡ count_by (λ row. page.is_held (fields_of row)) rows.now }
{
    let mut count = 0;
    for row in rows {
        if is_held(row) {
            count += 1;
        }
    }
    count
}

fn rejected(rows: &[ByteRecord]) -> usize
    ensures { result ≡ count_by (λ row. page.is_rejected (fields_of row)) rows.now }
{
    let mut count = 0;
    for row in rows {
        if is_rejected(row) {
            count += 1;
        }
    }
    count
}

pub(crate) fn refused(rows: &[ByteRecord]) -> usize
    ensures { result ≡ count_by (λ row. is_refused (fields_of row)) rows.now }
{
    let mut count = 0;
    for row in rows {
        if is_refused(row) {
            count += 1;
        }
    }
    count
}

fn append_delivered(out: &mut Vec<u8>, rows: &[ByteRecord]) -> Result<(), NoMemory>
    ensures { OnOk result (out.new.items ≡ out.old.items
        ++ count_box (codes "Delivered") (count_by is_delivered (map fields_of rows.now))) }
{
    append_count(out, b"Delivered", delivered(rows) as u64)
}

fn append_held(out: &mut Vec<u8>, rows: &[ByteRecord]) -> Result<(), NoMemory>
    ensures { OnOk result (out.new.items ≡ out.old.items
        ++ count_box (codes "Held") (count_by page.is_held (map fields_of rows.now))) }
{
    append_count(out, b"Held", held(rows) as u64)
}

fn append_rejected(out: &mut Vec<u8>, rows: &[ByteRecord]) -> Result<(), NoMemory>
    ensures { OnOk result (out.new.items ≡ out.old.items
        ++ count_box (codes "Rejected") (count_by page.is_rejected (map fields_of rows.now))) }
{
    append_count(out, b"Rejected", rejected(rows) as u64)
}

fn append_refused(out: &mut Vec<u8>, rows: &[ByteRecord]) -> Result<(), NoMemory>
    ensures { OnOk result (out.new.items ≡ out.old.items
        ++ count_box (codes "Interchanges refused") (count_by is_refused (map fields_of rows.now))) }
{
    append_count(out, b"Interchanges refused", refused(rows) as u64)
}

/// Appends how many rows have which outcome.
pub(crate) fn append_counts(out: &mut Vec<u8>, rows: &[ByteRecord]) -> Result<(), NoMemory>
    ensures { OnOk result (out.new.items ≡ out.old.items ++ page.counts_part (map fields_of rows.now)) }
{
    append_fixed(out, b"<dl>\n")?;
    append_delivered(out, rows)?;
    append_held(out, rows)?;
    append_rejected(out, rows)?;
    append_refused(out, rows)?;
    append_fixed(out, b"</dl>\n")
}

fn append_set(alloc: Global, out: &mut Vec<u8>, row: &ByteRecord) -> Result<(), NoMemory>
    ensures { OnOk result (out.new.items ≡ out.old.items ++ page.set_row (fields_of row.now)) }
{
    let group = group_words(alloc, row)?;
    let end = end_words(alloc, row)?;
    append_table_row(
        alloc,
        out,
        &[
            field(row, ST01),
            field(row, DOCUMENT),
            field(row, SENDER),
            field(row, ISA13),
            group.as_slice(),
            field(row, ST02),
            field(row, VERDICT),
            end.as_slice(),
        ],
    )
}

fn append_set_or_none(
    alloc: Global,
    out: &mut Vec<u8>,
    short: bool,
    row: &ByteRecord,
) -> Result<(), NoMemory>
    ensures { OnOk result (out.new.items ≡ out.old.items ++ page.set_row_or_none short (fields_of row.now)) }
{
    if short && is_delivered(row) {
        Ok(())
    } else {
        append_set(alloc, out, row)
    }
}

fn append_set_rows(
    alloc: Global,
    out: &mut Vec<u8>,
    short: bool,
    rows: &[ByteRecord],
) -> Result<(), NoMemory>
    ensures { OnOk result (out.new.items ≡ out.old.items ++ flat_map (page.set_row_or_none short) (map fields_of rows.now)) }
{
    for i in 0..rows.len() {
        append_set_or_none(alloc, out, short, &rows[i])?;
    }
    Ok(())
}

/// Whether there are so many rows that those of deliveries are left out.
#[tactic(auto, using(crate::proofs::Growing::short_rows))]
fn is_short(rows: &[ByteRecord]) -> bool
    ensures { result ≡ page.is_short (map fields_of rows.now) }
{
    MOST_ROWS < rows.len()
}

fn append_sets_head(out: &mut Vec<u8>, short: bool) -> Result<(), NoMemory>
    ensures { OnOk result (out.new.items ≡ out.old.items ++ page.sets_head short) }
{
    if short {
        append_fixed(out, b"<h2>Sets that were not delivered</h2>\n")
    } else {
        append_fixed(out, b"<h2>All sets</h2>\n")
    }
}

fn append_set_head(out: &mut Vec<u8>) -> Result<(), NoMemory>
    ensures { OnOk result (out.new.items ≡ out.old.items ++ page.set_table) }
{
    append_fixed(
        out,
        b"<p class=\"find\"><label>Find <input type=\"search\" id=\"find\"></label> <output id=\"found\"></output></p>\n",
    )?;
    append_fixed(out, b"<table id=\"sets\">\n")?;
    append_table_head(
        out,
        &[
            b"Set",
            b"Document",
            b"From",
            b"ISA13",
            b"Group",
            b"ST02",
            b"Verdict",
            b"Outcome",
        ],
    )
}

/// Appends the table of sets: a line for each row, or above 5,000 rows for each that is no delivery.
pub(crate) fn append_sets(
    alloc: Global,
    out: &mut Vec<u8>,
    rows: &[ByteRecord],
) -> Result<(), NoMemory>
    ensures { OnOk result (out.new.items ≡ out.old.items ++ page.sets_part (map fields_of rows.now)) }
{
    let short = is_short(rows);
    append_sets_head(out, short)?;
    append_set_head(out)?;
    append_set_rows(alloc, out, short, rows)?;
    append_fixed(out, b"</tbody>\n</table>\n")
}
