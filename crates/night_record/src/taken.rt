ghost use Rattle.std.specs.Prelude.{◌≡◌, ◌++◌, IfErr, IfOk, OnOk, map};
ghost use Rattle.csv.specs.Records.{fields_of};
ghost use Rattle.csv_fields.specs.Csv as csv;
ghost use Rattle.night_record.specs.Tables as tables;

use crate::fault::TableFault;
use crate::rows::{append_row, field, rows_of};
use crate::values::rest_after;
use csv::ByteRecord;
use hub_kinds::{NoMemory, Text, copy_text};
use std::alloc::Global;

/// An interchange that a night took, by the elements that identify it.
#[derive(Debug, Drop)]
pub struct TakenInterchange {
    /// The qualifier of its sender.
    pub isa05: Text,
    /// The id of its sender.
    pub isa06: Text,
    /// The qualifier of its receiver.
    pub isa07: Text,
    /// The id of its receiver.
    pub isa08: Text,
    /// Its control number.
    pub isa13: Text,
}

/// The first line of the table.
fn taken_columns() -> &'static [u8]
    ensures { result.now ≡ tables.taken_columns }
{
    b"isa05,isa06,isa07,isa08,isa13\r\n"
}

fn append_taken_row(out: &mut Vec<u8>, taken: &TakenInterchange) -> Result<(), NoMemory>
    ensures { OnOk result (out.new.items ≡ out.old.items ++ csv.record_text (tables.taken_row taken.now)) }
{
    append_row(
        out,
        &[
            taken.isa05.as_slice(),
            taken.isa06.as_slice(),
            taken.isa07.as_slice(),
            taken.isa08.as_slice(),
            taken.isa13.as_slice(),
        ],
    )
}

fn append_taken_rows(out: &mut Vec<u8>, list: &[TakenInterchange]) -> Result<(), NoMemory>
    ensures { OnOk result (out.new.items ≡ out.old.items ++ csv.table_text (map tables.taken_row list.now)) }
{
    for i in 0..list.len() {
        append_taken_row(out, &list[i])?;
    }
    Ok(())
}

/// Appends the table of `list` to `out`. The only error is out of memory.
pub fn append_taken(out: &mut Vec<u8>, list: &[TakenInterchange]) -> Result<(), NoMemory>
    ensures { OnOk result (out.new.items ≡ out.old.items ++ tables.taken_text list.now) }
{
    out.extend_from_slice(taken_columns())?;
    append_taken_rows(out, list)
}

fn taken_in(alloc: Global, row: &ByteRecord) -> Result<TakenInterchange, NoMemory>
    ensures { IfOk result (λ taken. taken ≡ tables.taken_in (fields_of row.now)) }
{
    Ok(TakenInterchange {
        isa05: copy_text(alloc, field(row, 0))?,
        isa06: copy_text(alloc, field(row, 1))?,
        isa07: copy_text(alloc, field(row, 2))?,
        isa08: copy_text(alloc, field(row, 3))?,
        isa13: copy_text(alloc, field(row, 4))?,
    })
}

fn each_taken(alloc: Global, rows: &[ByteRecord]) -> Result<Vec<TakenInterchange>, NoMemory>
    ensures { IfOk result (λ list. list.items ≡ map tables.taken_in (map fields_of rows.now)) }
{
    let mut list = Vec::new(alloc);
    for i in 0..rows.len() {
        list.push(taken_in(alloc, &rows[i])?)?;
    }
    Ok(list)
}

/// The interchanges whose table is `bytes`. Errors: the first line isn't the names of the columns; the rest isn't rows; or out of memory.
pub fn read_taken(alloc: Global, bytes: &[u8]) -> Result<Vec<TakenInterchange>, TableFault>
    ensures list { IfOk result (λ list. bytes.now ≡ tables.taken_text list.items) }
    ensures refused { IfErr result (tables.IsTakenFault bytes.now) }
{
    let Some(text) = rest_after(bytes, taken_columns()) else {
        return Err(TableFault::Columns);
    };
    let Some(rows) = rows_of(alloc, text)? else {
        return Err(TableFault::Rows);
    };
    Ok(each_taken(alloc, rows.as_slice())?)
}
