ghost use Rattle.std.specs.Prelude.{◌++◌, IfErr, IfOk};
ghost use Rattle.kept_files.specs.Files as files;

use crate::ends::end_files;
use crate::heading::Heading;
use crate::marks::{input_sum, mark_files};
use crate::night::record_file;
use crate::sums::sums_of;
use night_record::RecordFault;
use night_shelf::NightFile;
use std::alloc::Global;

/// The files of a night's folder: `made` are the files that it was made of, the input last; `out` are those that it gave; `tables` are its
/// tables. Errors: the first part of the night's record that can't be, as two files of one name; or out of memory.
pub fn kept_files(
    alloc: Global,
    heading: &Heading<'_>,
    made: Vec<NightFile>,
    out: Vec<NightFile>,
    tables: Vec<NightFile>,
) -> Result<Vec<NightFile>, RecordFault>
    ensures files { IfOk result (λ list. files.AreKeptFiles heading.now made.items out.items tables.items list.items) }
    ensures refused { IfErr result (files.IsRecordFault heading.now made.items (out.items ++ tables.items)) }
{
    let made_sums = sums_of(alloc, made.as_slice())?;
    let mut gave_sums = sums_of(alloc, out.as_slice())?;
    let input = input_sum(alloc, made_sums.as_slice())?;
    let mut marks = mark_files(alloc, heading, input.as_slice())?;
    let mut ends = end_files(alloc, heading, gave_sums.as_slice())?;
    let mut table_sums = sums_of(alloc, tables.as_slice())?;
    gave_sums.append(&mut table_sums)?;
    let night = record_file(alloc, heading, made_sums, gave_sums)?;
    let mut files = made;
    let mut out = out;
    let mut tables = tables;
    files.append(&mut marks)?;
    files.append(&mut out)?;
    files.append(&mut tables)?;
    files.append(&mut ends)?;
    files.push(night)?;
    Ok(files)
}
