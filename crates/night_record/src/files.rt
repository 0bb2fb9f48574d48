ghost use Rattle.std.specs.Prelude.{◌≡◌, ◌≢◌, ℕ, List, true, map, IfErr, IfOk, MatchOption};
ghost use Rattle.std.specs.List.{list_all};
ghost use Rattle.csv_fields.specs.Csv.{read};
ghost use Rattle.night_record.specs.Reading as reading;
ghost use Rattle.night_record.specs.Record as text;
ghost use Rattle.night_record.specs.Values as values;
ghost use Rattle.night_record.specs.declared.record.SummedFile.{SummedFile};

use crate::fault::{Part, RecordFault};
use crate::record::SummedFile;
use crate::values::{SUM_DIGITS, comes_before, is_name, is_sum, rest_before, unquoted};
use hub_kinds::{NoMemory, copy_text};
use std::alloc::Global;

fn is_file(file: &SummedFile) -> bool
    ensures { result ≡ text.is_file file.now }
{
    is_name(file.name.as_slice()) && is_sum(file.sum.as_slice())
}

/// The name and the sum in `line`, if they can be. The only error is out of memory.
fn file_in(alloc: Global, line: &[u8]) -> Result<Option<SummedFile>, NoMemory>
    ensures file { IfOk result (λ found. MatchOption found ((file : SummedFile) → text.is_file file ≡ true → line.now ≢ text.file_line file)
        (λ file. (line.now ≡ text.file_line file) × (text.is_file file ≡ true))) }
{
    let Some(both) = unquoted(line) else {
        return Ok(None);
    };
    if both.len() < SUM_DIGITS {
        return Ok(None);
    }
    let (front, sum) = both.split_at(both.len() - SUM_DIGITS);
    let Some(name) = rest_before(front, b"\" = \"") else {
        return Ok(None);
    };
    if is_name(name) && is_sum(sum) {
        Ok(Some(SummedFile {
            name: copy_text(alloc, name)?,
            sum: copy_text(alloc, sum)?,
        }))
    } else {
        Ok(None)
    }
}

/// The file of each of `lines`; none if one has none. The only error is out of memory.
fn each_file(alloc: Global, lines: &[&[u8]]) -> Result<Option<Vec<SummedFile>>, NoMemory>
    ensures files { IfOk result (λ found. MatchOption found
        ((files : List SummedFile) → list_all text.is_file files ≡ true → read lines.now ≢ map text.file_line files)
        (λ files. (read lines.now ≡ map text.file_line files.items) × (list_all text.is_file files.items ≡ true))) }
{
    let mut files = Vec::new(alloc);
    for i in 0..lines.len() {
        match file_in(alloc, lines[i])? {
            Some(file) => files.push(file)?,
            None => return Ok(None),
        }
    }
    Ok(Some(files))
}

/// Whether each name of `files` comes after the one before it, and the first after `first`.
fn rise_after(first: &[u8], files: &[SummedFile]) -> bool
    ensures { result ≡ values.rise_after first.now (map (λ (file : SummedFile). file.name) files.now) }
{
    let mut last = first;
    for i in 0..files.len() {
        let name = files[i].name.as_slice();
        if !comes_before(last, name) {
            return false;
        }
        last = name;
    }
    true
}

/// Whether the names of `files` are in the order of bytes, each once.
fn are_rising(files: &[SummedFile]) -> bool
    ensures { result ≡ values.are_rising (map (λ (file : SummedFile). file.name) files.now) }
{
    match files {
        [] => true,
        [first, rest @ ..] => rise_after(first.name.as_slice(), rest),
    }
}

fn can_each_be(files: &[SummedFile]) -> bool
    ensures { result ≡ list_all text.is_file files.now }
{
    files.iter().all(is_file)
}

/// Whether `files` can be in a record.
pub(crate) fn are_files(files: &[SummedFile]) -> bool
    ensures { result ≡ text.are_files files.now }
{
    can_each_be(files) && are_rising(files)
}

/// The files of `lines`. Errors: `part` is wrong; or out of memory.
pub(crate) fn read_files(
    alloc: Global,
    lines: &[&[u8]],
    part: Part,
) -> Result<Vec<SummedFile>, RecordFault>
    ensures files { IfOk result (λ files. reading.AreFilesOf (read lines.now) files.items) }
    ensures refused { IfErr result (reading.IsWrongFor part (reading.IsNoFiles (read lines.now))) }
{
    let Some(files) = each_file(alloc, lines)? else {
        return Err(RecordFault::Wrong(part));
    };
    if are_rising(files.as_slice()) {
        Ok(files)
    } else {
        Err(RecordFault::Wrong(part))
    }
}
