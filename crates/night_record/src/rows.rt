ghost use Rattle.std.specs.Prelude.{◌≡◌, ◌++◌, ◌↔◌, ℕ, List, None, true, IfOk, IfSome, OnOk, map};
ghost use Rattle.std.specs.List.{list_all};
ghost use Rattle.csv.specs.Reading.{AreRecords, default_config, strip_bom};
ghost use Rattle.csv.specs.Records.{fields_of};
ghost use Rattle.csv.specs.declared.parser.State.TheVariants as st;
ghost use Rattle.csv_fields.specs.Csv as csv;
ghost use Rattle.night_record.specs.Rows as five;

use csv::{ByteRecord, ReaderBuilder};
use csv_fields::{append_end, append_field, append_fields};
use hub_kinds::NoMemory;
use std::alloc::Global;

/// How many fields a row has.
pub(crate) const FIELDS: usize = 5;

/// Field `n` of `row`, counted from 0; empty if the row is shorter.
pub(crate) fn field(row: &ByteRecord, n: usize) -> &[u8]
    ensures { result.now ≡ five.field (fields_of row.entry.now) n }
{
    match row.get(n) {
        None => b"",
        Some(field) => field,
    }
}

/// Every record of `text`. A flexible reader of bytes that are in memory fails only if memory is refused.
fn records_of(alloc: Global, text: &[u8]) -> Result<Vec<ByteRecord>, NoMemory>
    ensures { IfOk result (λ rows. AreRecords default_config st.StartRecord (strip_bom text.now) (map fields_of rows.items)) }
{
    let rdr = ReaderBuilder::new()
        .has_headers(false)
        .flexible(true)
        .from_reader(alloc, text);
    let mut rows = Vec::new(alloc);
    for row in rdr.into_byte_records() {
        let Ok(row) = row else {
            return Err(NoMemory);
        };
        rows.push(row)?;
    }
    Ok(rows)
}

/// The fields of `row`, lent.
fn lent_fields(alloc: Global, row: &ByteRecord) -> Result<Vec<&[u8]>, NoMemory>
    ensures { IfOk result (λ fields. csv.read fields.items ≡ fields_of row.entry.now) }
{
    let mut fields = Vec::new(alloc);
    for i in 0..row.len() {
        fields.push(field(row, i))?;
    }
    Ok(fields)
}

/// Writes `fields` with commas between them.
fn append_cells(out: &mut Vec<u8>, fields: &[&[u8]]) -> Result<(), NoMemory>
    ensures { OnOk result (out.new.items ≡ out.old.items ++ csv.cells_text (csv.read fields.now)) }
{
    match fields {
        [] => Ok(()),
        [first, rest @ ..] => {
            append_field(out, first)?;
            append_fields(out, rest)
        }
    }
}

/// Writes the record of `fields`.
pub(crate) fn append_row(out: &mut Vec<u8>, fields: &[&[u8]]) -> Result<(), NoMemory>
    ensures { OnOk result (out.new.items ≡ out.old.items ++ csv.record_text (csv.read fields.now)) }
{
    append_cells(out, fields)?;
    append_end(out)
}

fn append_record(alloc: Global, out: &mut Vec<u8>, row: &ByteRecord) -> Result<(), NoMemory>
    ensures { OnOk result (out.new.items ≡ out.old.items ++ csv.record_text (fields_of row.now)) }
{
    let fields = lent_fields(alloc, row)?;
    append_row(out, fields.as_slice())
}

fn append_records(alloc: Global, out: &mut Vec<u8>, rows: &[ByteRecord]) -> Result<(), NoMemory>
    ensures { OnOk result (out.new.items ≡ out.old.items ++ csv.table_text (map fields_of rows.now)) }
{
    for i in 0..rows.len() {
        append_record(alloc, out, &rows[i])?;
    }
    Ok(())
}

/// Whether each row has all fields.
fn are_wide(rows: &[ByteRecord]) -> bool
    ensures { result ≡ list_all (λ r. five.is_wide (fields_of r)) rows.now }
{
    rows.iter().all(|row| row.len() == FIELDS)
}

/// Whether `text` is what is written of `rows`.
fn is_text_of(alloc: Global, text: &[u8], rows: &[ByteRecord]) -> Result<bool, NoMemory>
    ensures { IfOk result (λ is. (is ≡ true) ↔ (text.now ≡ csv.table_text (map fields_of rows.now))) }
{
    let mut written = Vec::new(alloc);
    append_records(alloc, &mut written, rows)?;
    Ok(written.as_slice() == text)
}

/// Whether `rows` are rows of five fields whose records are `text`.
fn are_rows_of(alloc: Global, text: &[u8], rows: &[ByteRecord]) -> Result<bool, NoMemory>
    ensures { IfOk result (λ are. (are ≡ true)
        ↔ ((list_all five.is_wide (map fields_of rows.now) ≡ true) × (text.now ≡ csv.table_text (map fields_of rows.now)))) }
{
    if !are_wide(rows) {
        return Ok(false);
    }
    is_text_of(alloc, text, rows)
}

/// The rows whose records are `text`; none if it isn't the records of rows of five fields. The only error is out of memory.
pub(crate) fn rows_of(alloc: Global, text: &[u8]) -> Result<Option<Vec<ByteRecord>>, NoMemory>
    ensures some { IfOk result (λ found. IfSome found (λ rows. five.HasRows text.now (map fields_of rows.items))) }
    ensures none { IfOk result (λ found. found ≡ None → (all : List (List (List ℕ))) → five.HasRows text.now all → ⊥) }
{
    let rows = records_of(alloc, text)?;
    if are_rows_of(alloc, text, rows.as_slice())? {
        Ok(Some(rows))
    } else {
        Ok(None)
    }
}
