ghost use Rattle.std.specs.Prelude.{◌≡◌, ◌++◌, ◌∷◌, [], OnOk, map};
ghost use Rattle.csv.specs.Records.{fields_of};
ghost use Rattle.csv_fields.specs.Csv as csv;
ghost use Rattle.track_read.specs.Export as export;

use crate::written::lent_fields;
use csv::ByteRecord;
use csv_fields::columns::column_line;
use csv_fields::{append_end, append_field};
use hub_kinds::NoMemory;
use std::alloc::Global;

/// How fields are exported.
#[derive(Clone, Copy, Debug, PartialEq, Eq)]
pub enum Form {
    /// As the tables have them.
    Plain,
    /// For a spreadsheet, which must take none for a formula.
    Sheet,
}

fn is_formula(field: &[u8]) -> bool
    ensures { result ≡ export.is_formula field.now }
{
    match field {
        [] => false,
        [first, ..] => *first == b'=' || (*first == b'+' || (*first == b'-' || *first == b'@')),
    }
}

/// Writes a field that a spreadsheet would take for a formula, with an apostrophe before it.
fn append_disarmed(alloc: Global, out: &mut Vec<u8>, formula: &[u8]) -> Result<(), NoMemory>
    ensures { OnOk result (out.new.items ≡ out.old.items ++ csv.field_text (39 ∷ formula.now)) }
{
    let mut text = Vec::new(alloc);
    text.push(b'\'')?;
    text.extend_from_slice(formula)?;
    append_field(out, text.as_slice())
}

fn append_exported(
    alloc: Global,
    out: &mut Vec<u8>,
    form: Form,
    field: &[u8],
) -> Result<(), NoMemory>
    ensures { OnOk result (out.new.items ≡ out.old.items ++ csv.field_text (export.exported form field.now)) }
{
    match form {
        Form::Sheet if is_formula(field) => append_disarmed(alloc, out, field),
        Form::Plain | Form::Sheet => append_field(out, field),
    }
}

/// Writes a field after a comma.
fn append_next(alloc: Global, out: &mut Vec<u8>, form: Form, field: &[u8]) -> Result<(), NoMemory>
    ensures { OnOk result (out.new.items ≡ out.old.items ++ 44 ∷ csv.field_text (export.exported form field.now)) }
{
    out.push(b',')?;
    append_exported(alloc, out, form, field)
}

/// Writes fields, each after a comma.
fn append_others(
    alloc: Global,
    out: &mut Vec<u8>,
    form: Form,
    fields: &[&[u8]],
) -> Result<(), NoMemory>
    ensures { OnOk result (out.new.items ≡ out.old.items ++ csv.fields_text (map (export.exported form) (csv.read fields.now))) }
{
    for i in 0..fields.len() {
        append_next(alloc, out, form, fields[i])?;
    }
    Ok(())
}

/// Writes a row of the night `night`.
fn append_row(
    alloc: Global,
    out: &mut Vec<u8>,
    form: Form,
    night: &[u8],
    row: &ByteRecord,
) -> Result<(), NoMemory>
    ensures { OnOk result (out.new.items ≡ out.old.items ++ export.export_row form night.now (fields_of row.now)) }
{
    let fields = lent_fields(alloc, row)?;
    append_exported(alloc, out, form, night)?;
    append_others(alloc, out, form, fields.as_slice())?;
    append_end(out)
}

/// Appends `rows`, the rows of the night `night`, to `out`, as `form` says. The only error is out of memory.
pub fn append_rows(
    alloc: Global,
    out: &mut Vec<u8>,
    form: Form,
    night: &[u8],
    rows: &[ByteRecord],
) -> Result<(), NoMemory>
    ensures { OnOk result (out.new.items ≡ out.old.items ++ export.export_rows form night.now (map fields_of rows.now)) }
{
    for i in 0..rows.len() {
        append_row(alloc, out, form, night, &rows[i])?;
    }
    Ok(())
}

/// Appends the names of the columns to `out`. The only error is out of memory.
pub fn append_columns(out: &mut Vec<u8>) -> Result<(), NoMemory>
    ensures { OnOk result (out.new.items ≡ out.old.items ++ export.export_columns) }
{
    out.extend_from_slice(b"night,")?;
    out.extend_from_slice(column_line())?;
    Ok(())
}
