ghost use Rattle.std.specs.Prelude.{◌≡◌, ◌++◌, ◌∷◌, [], codes, drop, map, take, IfErr, IfOk, MatchOption, OnOk};
ghost use Rattle.night_record.specs.Lines.{lines_text};
ghost use Rattle.night_record.specs.Record as text;
ghost use Rattle.night_record.specs.Refused.{IsBad, IsWriteFault};

use crate::fault::{Part, RecordFault};
use crate::files::are_files;
use crate::record::{NightRecord, SummedFile};
use crate::values::{is_count, is_moment, is_name, is_status, is_sum};
use hub_kinds::{NoMemory, Text};
use itoa::Buffer;
use std::alloc::Global;

fn is_before(before: &Option<Text>) -> bool
    ensures { result ≡ text.is_before before.now }
{
    match before {
        None => true,
        Some(sum) => is_sum(sum.as_slice()),
    }
}

/// The first part of `night` that can't be.
fn bad_part(night: &NightRecord) -> Option<Part>
    ensures { MatchOption result (text.CanBe night.now) (λ part. IsBad part night.now) }
{
    if !is_count(night.number) {
        return Some(Part::Number);
    }
    if !is_name(night.name.as_slice()) {
        return Some(Part::Name);
    }
    if !is_moment(night.moment.as_slice()) {
        return Some(Part::Moment);
    }
    if !is_before(&night.before) {
        return Some(Part::Before);
    }
    if !is_status(night.status) {
        return Some(Part::Status);
    }
    if !is_name(night.release.as_slice()) {
        return Some(Part::Release);
    }
    if !is_moment(night.clock.as_slice()) {
        return Some(Part::Clock);
    }
    if !are_files(night.made_of.as_slice()) {
        return Some(Part::MadeOf);
    }
    if !are_files(night.gave.as_slice()) {
        return Some(Part::Gave);
    }
    None
}

fn append_number(out: &mut Vec<u8>, key: &[u8], number: u32) -> Result<(), NoMemory>
    ensures { OnOk result (out.new.items ≡ out.old.items ++ (text.number_line key.now number ++ 10 ∷ [])) }
{
    let mut digits = Buffer::new();
    out.extend_from_slice(key)?;
    out.extend_from_slice(b" = ")?;
    out.extend_from_slice(digits.format(number).as_bytes())?;
    out.push(b'\n')?;
    Ok(())
}

fn append_text(out: &mut Vec<u8>, key: &[u8], value: &[u8]) -> Result<(), NoMemory>
    ensures { OnOk result (out.new.items ≡ out.old.items ++ (text.text_line key.now value.now ++ 10 ∷ [])) }
{
    out.extend_from_slice(key)?;
    out.extend_from_slice(b" = \"")?;
    out.extend_from_slice(value)?;
    out.extend_from_slice(b"\"\n")?;
    Ok(())
}

fn append_before(out: &mut Vec<u8>, before: &Option<Text>) -> Result<(), NoMemory>
    ensures { OnOk result (out.new.items
        ≡ out.old.items ++ (text.text_line (codes "before") (text.before_text before.now) ++ 10 ∷ [])) }
{
    match before {
        None => append_text(out, b"before", b"none"),
        Some(sum) => append_text(out, b"before", sum.as_slice()),
    }
}

fn append_file(out: &mut Vec<u8>, file: &SummedFile) -> Result<(), NoMemory>
    ensures { OnOk result (out.new.items ≡ out.old.items ++ (text.file_line file.now ++ 10 ∷ [])) }
{
    out.extend_from_slice(b"\"")?;
    out.extend_from_slice(file.name.as_slice())?;
    out.extend_from_slice(b"\" = \"")?;
    out.extend_from_slice(file.sum.as_slice())?;
    out.extend_from_slice(b"\"\n")?;
    Ok(())
}

fn append_each_file(out: &mut Vec<u8>, files: &[SummedFile]) -> Result<(), NoMemory>
    ensures { OnOk result (out.new.items ≡ out.old.items ++ lines_text (map text.file_line files.now)) }
{
    for file in files {
        append_file(out, file)?;
    }
    Ok(())
}

/// Writes an empty line, the line `title`, and a line for each of `files`.
fn append_files(out: &mut Vec<u8>, title: &[u8], files: &[SummedFile]) -> Result<(), NoMemory>
    ensures { OnOk result (out.new.items ≡ out.old.items ++ lines_text (text.files_lines title.now files.now)) }
{
    out.push(b'\n')?;
    out.extend_from_slice(title)?;
    out.push(b'\n')?;
    append_each_file(out, files)
}

fn append_first(out: &mut Vec<u8>, night: &NightRecord) -> Result<(), NoMemory>
    ensures { OnOk result (out.new.items ≡ out.old.items ++ lines_text (take 4 (text.head_lines night.now))) }
{
    out.extend_from_slice(b"version = 1\n")?;
    append_number(out, b"number", night.number)?;
    append_text(out, b"name", night.name.as_slice())?;
    append_text(out, b"moment", night.moment.as_slice())?;
    Ok(())
}

fn append_next(out: &mut Vec<u8>, night: &NightRecord) -> Result<(), NoMemory>
    ensures { OnOk result (out.new.items ≡ out.old.items ++ lines_text (drop 4 (text.head_lines night.now))) }
{
    append_before(out, &night.before)?;
    append_number(out, b"status", u32::from(night.status))?;
    append_text(out, b"release", night.release.as_slice())?;
    append_text(out, b"clock", night.clock.as_slice())?;
    Ok(())
}

fn append_record(out: &mut Vec<u8>, night: &NightRecord) -> Result<(), NoMemory>
    ensures { OnOk result (out.new.items ≡ out.old.items ++ text.record_text night.now) }
{
    append_first(out, night)?;
    append_next(out, night)?;
    append_files(out, b"[made_of]", night.made_of.as_slice())?;
    append_files(out, b"[gave]", night.gave.as_slice())?;
    Ok(())
}

/// The text of `night`. Errors: the first part of `night` that can't be in a record; or out of memory.
pub fn write_record(alloc: Global, night: &NightRecord) -> Result<Vec<u8>, RecordFault>
    ensures text_is { IfOk result (λ bytes. text.IsRecordOf bytes.items night.now) }
    ensures refused { IfErr result (IsWriteFault night.now) }
{
    if let Some(part) = bad_part(night) {
        return Err(RecordFault::Wrong(part));
    }
    let mut out = Vec::new(alloc);
    append_record(&mut out, night)?;
    Ok(out)
}
