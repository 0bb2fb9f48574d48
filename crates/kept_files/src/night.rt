ghost use Rattle.std.specs.Prelude.{◌≡◌, IfErr, IfOk, List, map, option_map};
ghost use Rattle.kept_files.specs.Files as files;
ghost use Rattle.kept_files.specs.Sums as sums;
ghost use Rattle.night_record.specs.Record.{record_text};
ghost use Rattle.night_record.specs.declared.record.NightRecord.{NightRecord};
ghost use Rattle.night_shelf.specs.declared.night.NightFile.{NightFile};

use crate::heading::Heading;
use crate::marks::file_of;
use crate::sums::in_order;
use hub_kinds::{Items, NoMemory, Text, copy_text};
use night_record::{NightRecord, RecordFault, SummedFile, write_record};
use night_shelf::NightFile;
use std::alloc::Global;

fn before_of(alloc: Global, sum: Option<&[u8]>) -> Result<Option<Text>, NoMemory>
    ensures { IfOk result (λ before. before ≡ option_map (λ s. s.now) sum.entry) }
{
    match sum {
        None => Ok(None),
        Some(sum) => Ok(Some(copy_text(alloc, sum)?)),
    }
}

/// The record that a night would have: `made` and `gave` are the sums of what it was made of and of what it gave.
fn draft(
    alloc: Global,
    heading: &Heading<'_>,
    made: Vec<SummedFile>,
    gave: Vec<SummedFile>,
) -> Result<NightRecord, NoMemory>
    ensures { IfOk result (λ night. (made_of given : List NightFile) → made.items ≡ map sums.sum_of made_of
        → gave.items ≡ map sums.sum_of given → files.IsDraft heading.now made_of given night) }
{
    Ok(NightRecord {
        number: heading.number,
        name: copy_text(alloc, heading.name)?,
        moment: copy_text(alloc, heading.moment)?,
        before: before_of(alloc, heading.before_sum)?,
        status: heading.status,
        release: copy_text(alloc, heading.release)?,
        clock: copy_text(alloc, heading.clock)?,
        made_of: Items::from_vec(in_order(made)),
        gave: Items::from_vec(in_order(gave)),
    })
}

/// The file of a night's record. Errors: the first part of the record that can't be; or out of memory.
pub(crate) fn record_file(
    alloc: Global,
    heading: &Heading<'_>,
    made: Vec<SummedFile>,
    gave: Vec<SummedFile>,
) -> Result<NightFile, RecordFault>
    ensures file { IfOk result (λ file. (made_of given : List NightFile) → made.items ≡ map sums.sum_of made_of
        → gave.items ≡ map sums.sum_of given → files.IsRecordFile heading.now made_of given file) }
    ensures refused { IfErr result (λ fault. (made_of given : List NightFile) → made.items ≡ map sums.sum_of made_of
        → gave.items ≡ map sums.sum_of given → files.IsRecordFault heading.now made_of given fault) }
{
    let night = draft(alloc, heading, made, gave)?;
    let text = write_record(alloc, &night)?;
    Ok(file_of(alloc, "night.toml", text)?)
}
