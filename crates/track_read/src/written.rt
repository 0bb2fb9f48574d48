ghost use Rattle.std.specs.Prelude.{◌≡◌, ◌++◌, IfOk, OnOk};
ghost use Rattle.csv.specs.Records.{fields_of};
ghost use Rattle.csv_fields.specs.Csv as csv;

use crate::fields::field;
use csv::ByteRecord;
use csv_fields::{append_end, append_field, append_fields};
use hub_kinds::NoMemory;
use std::alloc::Global;

/// The fields of `row`, lent.
pub(crate) fn lent_fields(alloc: Global, row: &ByteRecord) -> Result<Vec<&[u8]>, NoMemory>
    ensures { IfOk result (λ fields. csv.read fields.items ≡ fields_of row.entry.now) }
{
    let mut fields = Vec::new(alloc);
    for i in 0..row.len() {
        fields.push(field(row, i))?;
    }
    Ok(fields)
}

/// Writes `fields` with commas between them.
fn append_cells(out: &mut Vec<u8>, fields: &[&[u8]]) -> Result<(), NoMemory>
    ensures { OnOk result (out.new.items ≡ out.old.items ++ csv.cells_text (csv.read fields.now)) }
{
    match fields {
        [] => Ok(()),
        [first, rest @ ..] => {
            append_field(out, first)?;
            append_fields(out, rest)
        }
    }
}

/// Writes the record of `row`.
pub(crate) fn append_record(
    alloc: Global,
    out: &mut Vec<u8>,
    row: &ByteRecord,
) -> Result<(), NoMemory>
    ensures { OnOk result (out.new.items ≡ out.old.items ++ csv.record_text (fields_of row.now)) }
{
    let fields = lent_fields(alloc, row)?;
    append_cells(out, fields.as_slice())?;
    append_end(out)
}
