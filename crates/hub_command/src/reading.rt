ghost use Rattle.std.specs.Prelude.{◌≡◌, ◌++◌, ◌∷◌, [], IfErr, IfOk, OnOk, map};
ghost use Rattle.std.specs.List.{AllZip};
ghost use Rattle.hub_night.specs.Day.{AreFilesAt, IsContentAt, IsFileAt, IsInputAt};
ghost use Rattle.hub_folder.specs.Failure.{IsBefore};

use day_files::{Content, DayFile};
use file_names::is_not_utf_8;
use gather_command::is_changed;
use hub_folder::Failure;
use hub_kinds::{NoMemory, Text, copy_text};
use hub_night::Setting;
use night_folder::paper_of;
use std::fs::Metadata;
use std::io::ErrorKind;
use std::rt::Files;
use std::{fs, io};
use system_io::open_at;

/// The bytes of a file that came in.
fn input_at<R: Files + AllocGlobal>(rt: &R, path: &str) -> Result<Text, Failure>
    ensures input { IfOk result (IsInputAt path.now) }
    ensures before { IfErr result IsBefore }
{
    let file = paper_of(rt.alloc(), open_at(rt, path))?;
    match file.bytes() {
        Some(bytes) => Ok(copy_text(rt.alloc(), bytes)?),
        None => Err(Failure::Unread(copy_text(rt.alloc(), path.as_bytes())?)),
    }
}

fn is_out_of_memory(answer: &io::Result<Metadata>) -> bool {
    match answer {
        Ok(_) => false,
        Err(error) => error.kind() == ErrorKind::OutOfMemory,
    }
}

/// What the system says of the file at `path`. The only error is out of memory.
fn metadata_at<R: Files + AllocGlobal>(
    rt: &R,
    path: &str,
) -> Result<io::Result<Metadata>, NoMemory> {
    let answer = fs::metadata(rt, path);
    if is_out_of_memory(&answer) {
        return Err(NoMemory);
    }
    Ok(answer)
}

/// What is read of the file at `path`.
fn content_at<R: Files + AllocGlobal>(rt: &R, path: &str) -> Result<Content, Failure>
    ensures content { IfOk result (IsContentAt path.now) }
    ensures before { IfErr result IsBefore }
{
    if is_not_utf_8(path) {
        return Ok(Content::NameNotUtf8);
    }
    let before = metadata_at(rt, path)?;
    let bytes = input_at(rt, path)?;
    let after = metadata_at(rt, path)?;
    if is_changed(&before, &after) {
        Ok(Content::Changed)
    } else {
        Ok(Content::Read(bytes))
    }
}

fn file_at<R: Files + AllocGlobal>(rt: &R, path: &str, is_again: bool) -> Result<DayFile, Failure>
    ensures file { IfOk result (IsFileAt is_again path.now) }
    ensures before { IfErr result IsBefore }
{
    Ok(DayFile {
        path: copy_text(rt.alloc(), path.as_bytes())?,
        content: content_at(rt, path)?,
        is_again,
    })
}

fn push(files: &mut Vec<DayFile>, file: DayFile) -> Result<(), NoMemory>
    ensures { OnOk result (files.new.items ≡ files.old.items ++ file ∷ []) }
{
    files.push(file)?;
    Ok(())
}

/// Reads the files at `paths`, which are asked for again if `is_again`.
fn files_at<R: Files + AllocGlobal>(
    rt: &R,
    paths: &[&str],
    is_again: bool,
) -> Result<Vec<DayFile>, Failure>
    ensures files { IfOk result (λ files. AllZip (IsFileAt is_again) (map (λ p. p.now) paths.now) files.items) }
    ensures before { IfErr result IsBefore }
{
    let mut files = Vec::new(rt.alloc());
    for i in 0..paths.len() {
        push(&mut files, file_at(rt, paths[i], is_again)?)?;
    }
    Ok(files)
}

/// Reads the files of the day: those of the arguments, and after them those that are asked for again.
pub(crate) fn day_files_at<R: Files + AllocGlobal>(
    rt: &R,
    setting: &Setting<'_>,
) -> Result<Vec<DayFile>, Failure>
    ensures files { IfOk result (λ files. AreFilesAt setting.now files.items) }
    ensures before { IfErr result IsBefore }
{
    let mut files = files_at(rt, setting.files, false)?;
    let mut again = files_at(rt, setting.again, true)?;
    files.append(&mut again)?;
    Ok(files)
}
