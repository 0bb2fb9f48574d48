ghost use Rattle.std.specs.Prelude.{◌≡◌, IfOk, option_map};
ghost use Rattle.day_command.specs.Record as records;

use hub_kinds::{NoMemory, Text};
use night_entries::sum_of;
use night_folder::read_paper;
use night_page::RecordShown;
use night_record::{RecordFault, read_record};
use std::alloc::Global;
use std::rt::Files;

/// What the clock of the host said by the `bytes` of a record; none if they are no record.
fn clock_of(alloc: Global, bytes: &[u8]) -> Result<Option<Text>, NoMemory>
    ensures { IfOk result (records.IsClockOf bytes.now) }
{
    match read_record(alloc, bytes) {
        Ok(told) => Ok(Some(told.clock)),
        Err(RecordFault::Memory) => Err(NoMemory),
        Err(RecordFault::CutOff) => Ok(None),
        Err(RecordFault::Wrong(_)) => Ok(None),
    }
}

/// What a page shows of the record that has some `bytes`.
fn shown_of(alloc: Global, bytes: &[u8]) -> Result<RecordShown, NoMemory>
    ensures { IfOk result (records.IsShownOf bytes.now) }
{
    Ok(RecordShown {
        sum: sum_of(alloc, bytes)?,
        clock: clock_of(alloc, bytes)?,
    })
}

fn shown_in(alloc: Global, bytes: Option<&[u8]>) -> Result<Option<RecordShown>, NoMemory>
    ensures { IfOk result (records.IsShownIn (option_map (λ b. b.now) bytes.entry)) }
{
    match bytes {
        None => Ok(None),
        Some(bytes) => Ok(Some(shown_of(alloc, bytes)?)),
    }
}

/// What a page shows of the record of the night in the folder at the path `night`; none if it has no file night.toml that can be read.
pub(crate) fn record_at<R: Files + AllocGlobal>(
    rt: &R,
    night: &[u8],
) -> Result<Option<RecordShown>, NoMemory>
    ensures { IfOk result (records.IsShownAt night.now) }
{
    let file = read_paper(rt, night, b"night.toml")?;
    shown_in(rt.alloc(), file.bytes())
}
