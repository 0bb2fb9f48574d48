ghost use Rattle.std.specs.Prelude.{◌≡◌, ◌≤◌, length, option_map, IfErr, IfOk};
ghost use Rattle.csv_fields.specs.Csv.{read};
ghost use Rattle.night_record.specs.Reading as reading;
ghost use Rattle.night_record.specs.Record.{IsRecordOf};
ghost use Rattle.night_record.specs.Refused.{IsReadFault};

use crate::fault::RecordFault;
use crate::head::{HEAD_LINES, Head, read_head};
use crate::lines::lines_in;
use crate::parts::{Parts, read_parts};
use crate::record::NightRecord;
use hub_kinds::{Items, NoMemory, Text, copy_text};
use std::alloc::Global;

/// How many lines each record has: those of a night that was made of no file and gave none.
const LEAST_LINES: usize = 12;

fn copy_before(alloc: Global, before: Option<&[u8]>) -> Result<Option<Text>, NoMemory>
    ensures { IfOk result (λ copy. copy ≡ option_map (λ sum. sum.now) before.entry) }
{
    match before {
        None => Ok(None),
        Some(sum) => Ok(Some(copy_text(alloc, sum)?)),
    }
}

/// The record of `head` and `parts`. The only error is out of memory.
fn joined(alloc: Global, head: &Head<'_>, parts: Parts) -> Result<NightRecord, NoMemory>
    ensures { IfOk result (λ night. night ≡ reading.joined head.now parts.made_of.items parts.gave.items) }
{
    Ok(NightRecord {
        number: head.number,
        name: copy_text(alloc, head.name)?,
        moment: copy_text(alloc, head.moment)?,
        before: copy_before(alloc, head.before)?,
        status: head.status,
        release: copy_text(alloc, head.release)?,
        clock: copy_text(alloc, head.clock)?,
        made_of: Items::from_vec(parts.made_of),
        gave: Items::from_vec(parts.gave),
    })
}

/// The record of `lines`. Errors: the first part that is wrong; or out of memory.
fn record_of(alloc: Global, lines: &[&[u8]]) -> Result<NightRecord, RecordFault>
    requires { 8 ≤ length lines.now }
    ensures record_is { IfOk result (reading.AreRecordLines (read lines.now)) }
    ensures refused { IfErr result (reading.IsLinesFault (read lines.now)) }
{
    let (first, rest) = lines.split_at(HEAD_LINES);
    let head = read_head(first)?;
    let parts = read_parts(alloc, rest)?;
    Ok(joined(alloc, &head, parts)?)
}

/// The record whose text is `bytes`. Errors: the text is cut off; the first part that is wrong; or out of memory.
pub fn read_record(alloc: Global, bytes: &[u8]) -> Result<NightRecord, RecordFault>
    ensures record_is { IfOk result (IsRecordOf bytes.now) }
    ensures refused { IfErr result (IsReadFault bytes.now) }
{
    let Some(lines) = lines_in(alloc, bytes)? else {
        return Err(RecordFault::CutOff);
    };
    if lines.len() < LEAST_LINES {
        return Err(RecordFault::CutOff);
    }
    record_of(alloc, lines.as_slice())
}
