ghost use Rattle.std.specs.Prelude.{◌≡◌, ◌++◌, IfErr, IfOk, OnOk, map};
ghost use Rattle.csv.specs.Records.{fields_of};
ghost use Rattle.csv_fields.specs.Csv as csv;
ghost use Rattle.night_record.specs.Again as again;

use crate::fault::TableFault;
use crate::rows::{append_row, field, rows_of};
use crate::values::rest_after;
use csv::ByteRecord;
use hub_kinds::{NoMemory, Text, copy_text};
use std::alloc::Global;

/// A set that a night was asked for again, by the elements that identify it and who receives it.
#[derive(Debug, Drop)]
pub struct AgainSet {
    /// The qualifiers and the ids of its interchange, ISA05 to ISA08 in their widths.
    pub ends: Text,
    /// The control number of its interchange.
    pub isa13: Text,
    /// The control number of its group.
    pub gs06: Text,
    /// Its own control number.
    pub st02: Text,
    /// The qualifier and the id of its receiver, with a space between them.
    pub receiver: Text,
}

/// The first line of the table.
fn again_columns() -> &'static [u8]
    ensures { result.now ≡ again.again_columns }
{
    b"isa05 to isa08,isa13,gs06,st02,receiver\r\n"
}

fn append_again_row(out: &mut Vec<u8>, set: &AgainSet) -> Result<(), NoMemory>
    ensures { OnOk result (out.new.items ≡ out.old.items ++ csv.record_text (again.again_row set.now)) }
{
    append_row(
        out,
        &[
            set.ends.as_slice(),
            set.isa13.as_slice(),
            set.gs06.as_slice(),
            set.st02.as_slice(),
            set.receiver.as_slice(),
        ],
    )
}

fn append_again_rows(out: &mut Vec<u8>, list: &[AgainSet]) -> Result<(), NoMemory>
    ensures { OnOk result (out.new.items ≡ out.old.items ++ csv.table_text (map again.again_row list.now)) }
{
    for i in 0..list.len() {
        append_again_row(out, &list[i])?;
    }
    Ok(())
}

/// Appends the table of `list` to `out`; nothing if there is no set in it. The only error is out of memory.
pub fn append_again(out: &mut Vec<u8>, list: &[AgainSet]) -> Result<(), NoMemory>
    ensures { OnOk result (out.new.items ≡ out.old.items ++ again.again_text list.now) }
{
    if list.is_empty() {
        return Ok(());
    }
    out.extend_from_slice(again_columns())?;
    append_again_rows(out, list)
}

fn again_in(alloc: Global, row: &ByteRecord) -> Result<AgainSet, NoMemory>
    ensures { IfOk result (λ set. set ≡ again.again_in (fields_of row.now)) }
{
    Ok(AgainSet {
        ends: copy_text(alloc, field(row, 0))?,
        isa13: copy_text(alloc, field(row, 1))?,
        gs06: copy_text(alloc, field(row, 2))?,
        st02: copy_text(alloc, field(row, 3))?,
        receiver: copy_text(alloc, field(row, 4))?,
    })
}

fn each_again(alloc: Global, rows: &[ByteRecord]) -> Result<Vec<AgainSet>, NoMemory>
    ensures { IfOk result (λ list. list.items ≡ map again.again_in (map fields_of rows.now)) }
{
    let mut list = Vec::new(alloc);
    for i in 0..rows.len() {
        list.push(again_in(alloc, &rows[i])?)?;
    }
    Ok(list)
}

/// The sets whose table is `bytes`; none if there are no bytes. Errors: the first line isn't the names of the columns; the rest isn't rows,
/// at least one; or out of memory.
pub fn read_again(alloc: Global, bytes: &[u8]) -> Result<Vec<AgainSet>, TableFault>
    ensures list { IfOk result (λ list. bytes.now ≡ again.again_text list.items) }
    ensures refused { IfErr result (again.IsAgainFault bytes.now) }
{
    if bytes.is_empty() {
        return Ok(Vec::new(alloc));
    }
    let Some(text) = rest_after(bytes, again_columns()) else {
        return Err(TableFault::Columns);
    };
    let Some(rows) = rows_of(alloc, text)? else {
        return Err(TableFault::Rows);
    };
    if rows.is_empty() {
        return Err(TableFault::Rows);
    }
    Ok(each_again(alloc, rows.as_slice())?)
}
