ghost use Rattle.std.specs.Prelude.{◌≡◌, ◌++◌, ◌∷◌, ◌↔◌, ℕ, List, None, false, true, IfOk, IfSome, OnOk, length, map};
ghost use Rattle.std.specs.List.{list_all};
ghost use Rattle.csv.specs.Reading.{AreRecords, default_config, strip_bom};
ghost use Rattle.csv.specs.Records.{fields_of};
ghost use Rattle.csv.specs.declared.parser.State.TheVariants as st;
ghost use Rattle.csv_fields.specs.Csv.{record_text, table_text};
ghost use Rattle.track_read.specs.Table as table;

use crate::written::append_record;
use csv::{ByteRecord, ReaderBuilder};
use csv_fields::columns::{COLUMNS, column_line};
use hub_kinds::NoMemory;
use std::alloc::Global;

/// Every record of `text`. A flexible reader of bytes that are in memory fails only if memory is refused.
fn records_of(alloc: Global, text: &[u8]) -> Result<Vec<ByteRecord>, NoMemory>
    ensures { IfOk result (λ rows. AreRecords default_config st.StartRecord (strip_bom text.now) (map fields_of rows.items)) }
{
    let rdr = ReaderBuilder::new()
        .has_headers(false)
        .flexible(true)
        .from_reader(alloc, text);
    let mut rows = Vec::new(alloc);
    for row in rdr.into_byte_records() {
        let Ok(row) = row else {
            return Err(NoMemory);
        };
        rows.push(row)?;
    }
    Ok(rows)
}

/// Whether each row has all fields.
fn are_wide(rows: &[ByteRecord]) -> bool
    ensures { result ≡ list_all (λ row. table.is_wide (fields_of row)) rows.now }
{
    rows.iter().all(|row| row.len() == COLUMNS)
}

/// Whether `text` is what is written of `rows`.
fn is_text_of(alloc: Global, text: &[u8], rows: &[ByteRecord]) -> Result<bool, NoMemory>
    ensures { IfOk result (λ is. (is ≡ true) ↔ (text.now ≡ table_text (map fields_of rows.now))) }
{
    let mut written = Vec::new(alloc);
    append_records(alloc, &mut written, rows)?;
    Ok(written.as_slice() == text)
}

fn append_records(alloc: Global, out: &mut Vec<u8>, rows: &[ByteRecord]) -> Result<(), NoMemory>
    ensures { OnOk result (out.new.items ≡ out.old.items ++ table_text (map fields_of rows.now)) }
{
    for i in 0..rows.len() {
        append_record(alloc, out, &rows[i])?;
    }
    Ok(())
}

/// Whether `rows` are the rows of a table whose records are `text`.
fn are_rows_of(alloc: Global, text: &[u8], rows: &[ByteRecord]) -> Result<bool, NoMemory>
    ensures { IfOk result (λ are. (are ≡ true)
        ↔ ((list_all table.is_wide (map fields_of rows.now) ≡ true) × (text.now ≡ table_text (map fields_of rows.now)))) }
{
    if !are_wide(rows) {
        return Ok(false);
    }
    is_text_of(alloc, text, rows)
}

/// The rows of a table after its line of columns; none if `text` isn't their records.
fn rows_of(alloc: Global, text: &[u8]) -> Result<Option<Vec<ByteRecord>>, NoMemory>
    ensures rows { IfOk result (λ found. IfSome found (λ rows. table.HasRows text.now (map fields_of rows.items))) }
    ensures none { IfOk result (λ found. found ≡ None → (rows : List (List (List ℕ))) → table.HasRows text.now rows → ⊥) }
{
    let rows = records_of(alloc, text)?;
    if are_rows_of(alloc, text, rows.as_slice())? {
        Ok(Some(rows))
    } else {
        Ok(None)
    }
}

/// The rows of the table in `bytes`; none if they aren't a table. The only error is out of memory.
pub fn read_table(alloc: Global, bytes: &[u8]) -> Result<Option<Vec<ByteRecord>>, NoMemory>
    ensures rows { IfOk result (λ found. IfSome found (λ rows. table.IsTable bytes.now (map fields_of rows.items))) }
    ensures none { IfOk result (λ found. found ≡ None → (rows : List (List (List ℕ))) → table.IsTable bytes.now rows → ⊥) }
{
    match bytes.strip_prefix(column_line()) {
        Some(text) => rows_of(alloc, text),
        None => Ok(None),
    }
}
