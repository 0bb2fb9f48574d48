ghost use Rattle.std.specs.Prelude.{◌≡◌, ◌++◌, ◌≤◌, OnOk, decimal};
ghost use Rattle.record_chain.specs.Lines as lines;

use crate::breaks::{ChainBreak, FileFault, OtherNumber, OtherRecord, WrongFile};
use file_names::append_shown;
use hub_kinds::NoMemory;
use itoa::Buffer;
use std::alloc::Global;

fn append_text(out: &mut Vec<u8>, text: &str) -> Result<(), NoMemory>
    ensures { OnOk result (out.new.items ≡ out.old.items ++ text.now) }
{
    out.extend_from_slice(text.as_bytes())?;
    Ok(())
}

fn append_number(out: &mut Vec<u8>, number: u32) -> Result<(), NoMemory>
    ensures { OnOk result (out.new.items ≡ out.old.items ++ decimal number) }
{
    let mut digits = Buffer::new();
    append_text(out, digits.format(number))
}

fn append_night(out: &mut Vec<u8>, number: u32, name: &[u8]) -> Result<(), NoMemory>
    ensures { OnOk result (out.new.items ≡ out.old.items ++ lines.night_words number name.now) }
{
    append_number(out, number)?;
    append_text(out, " (")?;
    out.extend_from_slice(name)?;
    append_text(out, ")")
}

fn append_missing(out: &mut Vec<u8>, first: u32, last: u32) -> Result<(), NoMemory>
    ensures { OnOk result (out.new.items ≡ out.old.items ++ lines.missing_words first last) }
{
    if first == last {
        append_text(out, "night ")?;
        append_number(out, first)?;
        return append_text(out, " is missing");
    }
    append_text(out, "nights ")?;
    append_number(out, first)?;
    append_text(out, " to ")?;
    append_number(out, last)?;
    append_text(out, " are missing")
}

fn append_after(out: &mut Vec<u8>, other: &OtherNumber<'_>) -> Result<(), NoMemory>
    ensures { OnOk result (out.new.items ≡ out.old.items ++ lines.after_words other.now) }
{
    append_text(out, " comes after night ")?;
    append_night(out, other.before, other.before_name.bytes())
}

fn append_late(out: &mut Vec<u8>, other: &OtherNumber<'_>) -> Result<(), NoMemory>
    ensures { OnOk result (out.new.items ≡ out.old.items ++ lines.late_words other.now) }
{
    append_text(out, "night ")?;
    append_night(out, other.number, other.name.bytes())?;
    append_after(out, other)
}

fn append_other_number(out: &mut Vec<u8>, other: &OtherNumber<'_>) -> Result<(), NoMemory>
    ensures { OnOk result (out.new.items ≡ out.old.items ++ lines.number_words other.now) }
{
    if other.before < other.number {
        append_missing(out, other.before + 1, other.number - 1)
    } else {
        append_late(out, other)
    }
}

fn append_other_record(out: &mut Vec<u8>, other: &OtherRecord) -> Result<(), NoMemory>
    ensures { OnOk result (out.new.items ≡ out.old.items ++ lines.record_words other.now) }
{
    append_text(out, "night ")?;
    if other.before == 0 {
        append_number(out, other.number)?;
        return append_text(out, " names a record before it, and it is the first");
    }
    append_number(out, other.before)?;
    append_text(out, "'s record isn't the one that night ")?;
    append_number(out, other.number)?;
    append_text(out, " names")
}

fn fault_words(fault: FileFault) -> &'static str
    ensures { result.now ≡ lines.fault_words fault }
{
    match fault {
        FileFault::Gone => " is gone",
        FileFault::Changed => " was changed",
        FileFault::NotListed => " isn't listed",
    }
}

fn append_wrong(out: &mut Vec<u8>, file: &WrongFile<'_>) -> Result<(), NoMemory>
    ensures { OnOk result (out.new.items ≡ out.old.items ++ lines.wrong_words file.now) }
{
    append_text(out, " isn't what its record says: ")?;
    out.extend_from_slice(file.file.bytes())?;
    append_text(out, fault_words(file.fault))
}

fn append_file(out: &mut Vec<u8>, file: &WrongFile<'_>) -> Result<(), NoMemory>
    ensures { OnOk result (out.new.items ≡ out.old.items ++ lines.file_words file.now) }
{
    append_text(out, "night ")?;
    append_night(out, file.number, file.name.bytes())?;
    append_wrong(out, file)
}

fn append_words(out: &mut Vec<u8>, found: &ChainBreak<'_>) -> Result<(), NoMemory>
    ensures { OnOk result (out.new.items ≡ out.old.items ++ lines.break_words found.now) }
{
    match found {
        ChainBreak::Number(other) => append_other_number(out, other),
        ChainBreak::Record(other) => append_other_record(out, other),
        ChainBreak::File(file) => append_file(out, file),
    }
}

fn append_break(alloc: Global, out: &mut Vec<u8>, found: &ChainBreak<'_>) -> Result<(), NoMemory>
    ensures { OnOk result (out.new.items ≡ out.old.items ++ lines.line_of (lines.break_words found.now)) }
{
    let mut words = Vec::new(alloc);
    append_words(&mut words, found)?;
    append_shown(out, words.as_slice())?;
    append_text(out, "\n")
}

/// Appends a line for each of `found` to `out`. The only error is out of memory.
pub fn append_breaks(
    alloc: Global,
    out: &mut Vec<u8>,
    found: &[ChainBreak<'_>],
) -> Result<(), NoMemory>
    ensures { OnOk result (out.new.items ≡ out.old.items ++ lines.break_lines found.now) }
{
    for i in 0..found.len() {
        append_break(alloc, out, &found[i])?;
    }
    Ok(())
}
