ghost use Rattle.std.specs.Prelude.{◌≡◌, ◌≢◌, ◌≤◌, true, codes, length, option_map, IfErr, IfOk};
ghost use Rattle.csv_fields.specs.Csv.{read};
ghost use Rattle.night_record.specs.Reading as reading;
ghost use Rattle.night_record.specs.Record as text;
ghost use Rattle.night_record.specs.Values as values;
ghost use Rattle.night_record.specs.declared.fault.Part.TheVariants as part;

use crate::fault::{Part, RecordFault};
use crate::values::{is_count, is_moment, is_name, is_sum, number_of, text_in};

/// How many lines there are before the files.
pub(crate) const HEAD_LINES: usize = 8;

/// What the lines before the files say.
#[derive(Drop)]
pub(crate) struct Head<'a> {
    pub(crate) number: u32,
    pub(crate) name: &'a [u8],
    pub(crate) moment: &'a [u8],
    pub(crate) before: Option<&'a [u8]>,
    pub(crate) status: u8,
    pub(crate) release: &'a [u8],
    pub(crate) clock: &'a [u8],
}

fn check_version(line: &[u8]) -> Result<(), RecordFault>
    ensures right { IfOk result (λ _. line.now ≡ text.version_line) }
    ensures refused { IfErr result (reading.IsWrongFor part.Version (line.now ≢ text.version_line)) }
{
    if line == b"version = 1".as_slice() {
        Ok(())
    } else {
        Err(RecordFault::Wrong(Part::Version))
    }
}

fn read_count(line: &[u8]) -> Result<u32, RecordFault>
    ensures number { IfOk result (λ n. (line.now ≡ text.number_line (codes "number") n) × (values.is_count n ≡ true)) }
    ensures refused { IfErr result (reading.IsWrongFor part.Number (reading.IsNoNumber (codes "number") line.now)) }
{
    match number_of(line, b"number") {
        Some(n) if is_count(n) => Ok(n),
        Some(_) | None => Err(RecordFault::Wrong(Part::Number)),
    }
}

fn read_status(line: &[u8]) -> Result<u8, RecordFault>
    ensures status { IfOk result (λ n. (line.now ≡ text.number_line (codes "status") n) × (values.is_status n ≡ true)) }
    ensures refused { IfErr result (reading.IsWrongFor part.Status (reading.IsNoStatus (codes "status") line.now)) }
{
    match number_of(line, b"status") {
        Some(n) if n <= 6 => Ok(n as u8),
        Some(_) | None => Err(RecordFault::Wrong(Part::Status)),
    }
}

fn read_name<'a>(line: &'a [u8], key: &[u8], part: Part) -> Result<&'a [u8], RecordFault>
    ensures name { IfOk result (λ name. (line.entry.now ≡ text.text_line key.now name.now) × (values.is_name name.now ≡ true)) }
    ensures refused { IfErr result (reading.IsWrongFor part (reading.IsNoName key.now line.entry.now)) }
{
    let Some(name) = text_in(line, key) else {
        return Err(RecordFault::Wrong(part));
    };
    if !is_name(name) {
        return Err(RecordFault::Wrong(part));
    }
    Ok(name)
}

fn read_moment<'a>(line: &'a [u8], key: &[u8], part: Part) -> Result<&'a [u8], RecordFault>
    ensures moment { IfOk result (λ moment. (line.entry.now ≡ text.text_line key.now moment.now) × (values.is_moment moment.now ≡ true)) }
    ensures refused { IfErr result (reading.IsWrongFor part (reading.IsNoMoment key.now line.entry.now)) }
{
    let Some(moment) = text_in(line, key) else {
        return Err(RecordFault::Wrong(part));
    };
    if !is_moment(moment) {
        return Err(RecordFault::Wrong(part));
    }
    Ok(moment)
}

fn read_before<'a>(line: &'a [u8]) -> Result<Option<&'a [u8]>, RecordFault>
    ensures before { IfOk result (λ before.
        (line.entry.now ≡ text.text_line (codes "before") (text.before_text (option_map (λ sum. sum.now) before)))
        × (text.is_before (option_map (λ sum. sum.now) before) ≡ true)) }
    ensures refused { IfErr result (reading.IsWrongFor part.Before (reading.IsNoBefore (codes "before") line.entry.now)) }
{
    let Some(sum) = text_in(line, b"before") else {
        return Err(RecordFault::Wrong(Part::Before));
    };
    if sum == b"none".as_slice() {
        return Ok(None);
    }
    if !is_sum(sum) {
        return Err(RecordFault::Wrong(Part::Before));
    }
    Ok(Some(sum))
}

/// What the first eight of `lines` say. The error is the first line that is wrong.
pub(crate) fn read_head<'a>(lines: &[&'a [u8]]) -> Result<Head<'a>, RecordFault>
    requires { 8 ≤ length lines.now }
    ensures head { IfOk result (reading.IsHead (read lines.now)) }
    ensures refused { IfErr result (reading.IsHeadFault (read lines.now)) }
{
    check_version(lines[0])?;
    Ok(Head {
        number: read_count(lines[1])?,
        name: read_name(lines[2], b"name", Part::Name)?,
        moment: read_moment(lines[3], b"moment", Part::Moment)?,
        before: read_before(lines[4])?,
        status: read_status(lines[5])?,
        release: read_name(lines[6], b"release", Part::Release)?,
        clock: read_moment(lines[7], b"clock", Part::Clock)?,
    })
}
