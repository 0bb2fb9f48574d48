ghost use Rattle.std.specs.Prelude.{◌≡◌, ◌++◌, IfOk, OnOk};
ghost use Rattle.hub_command.specs.Lines as lines;

use crate::words::{append_ended, append_hub, append_words};
use hub_kinds::NoMemory;
use itoa::Buffer;
use std::alloc::Global;

/// A night that may be sent.
#[derive(Clone, Copy)]
pub(crate) struct Ready<'a> {
    pub(crate) hub: &'a [u8],
    pub(crate) number: u32,
    pub(crate) name: &'a [u8],
    pub(crate) folder: &'a [u8],
    /// A line for each file of the day.
    pub(crate) lines: &'a [u8],
    /// The last line of its report.
    pub(crate) total: &'a [u8],
    /// The SHA-256 of its record.
    pub(crate) record_sum: &'a [u8],
}

fn append_night(out: &mut Vec<u8>, ready: &Ready<'_>) -> Result<(), NoMemory>
    ensures { OnOk result (out.new.items ≡ out.old.items ++ lines.night_words ready.now) }
{
    let mut digits = Buffer::new();
    append_words(out, "night ", digits.format(ready.number).as_bytes())?;
    append_words(out, " (", ready.name)
}

fn append_place(out: &mut Vec<u8>, ready: &Ready<'_>) -> Result<(), NoMemory>
    ensures { OnOk result (out.new.items ≡ out.old.items ++ lines.place_words ready.now) }
{
    append_hub(out, ") is ready: ", ready.hub)?;
    append_words(out, "/nights/", ready.folder)
}

/// What is printed of a night that may be sent.
pub(crate) fn ready_text(alloc: Global, ready: &Ready<'_>) -> Result<Vec<u8>, NoMemory>
    ensures { IfOk result (λ text. text.items ≡ lines.ready_text ready.now) }
{
    let mut text = Vec::from_slice(alloc, ready.lines)?;
    text.extend_from_slice(ready.total)?;
    append_night(&mut text, ready)?;
    append_place(&mut text, ready)?;
    append_ended(&mut text, "/out, record ", ready.record_sum)?;
    Ok(text)
}
