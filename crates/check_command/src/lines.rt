ghost use Rattle.std.specs.Prelude.{◌≡◌, ◌++◌, ◌⊎◌, IfOk, OnOk};
ghost use Rattle.std.specs.List.{list_all};
ghost use Rattle.check_command.specs.Lines as lines;

use crate::told::{FileTold, Listed, Told};
use file_names::append_shown;
use hub_kinds::{NoMemory, Text};
use setup_errors::{append, append_number};
use std::alloc::Global;

fn noun_of(what: Listed) -> &'static [u8]
    ensures { result.now ≡ lines.noun_of what }
{
    match what {
        Listed::Slots => b" segments and loops",
        Listed::Partners => b" partners",
        Listed::Counters => b" counters",
    }
}

fn append_count(out: &mut Vec<u8>, count: u64, what: Listed) -> Result<(), NoMemory>
    ensures { OnOk result (out.new.items ≡ out.old.items ++ lines.taken_text count what) }
{
    append(out, b"ok, ")?;
    append_number(out, count)?;
    append(out, noun_of(what))
}

fn append_told(out: &mut Vec<u8>, told: &Told) -> Result<(), NoMemory>
    ensures { OnOk result (out.new.items ≡ out.old.items ++ lines.told_text told.now) }
{
    match told {
        Told::Taken(count, what, _) => append_count(out, *count, *what),
        Told::Open => append(out, b"read, and not judged, since another file is refused"),
        Told::Refused(text) => append_shown(out, text.as_slice()),
    }
}

pub(crate) fn append_line(out: &mut Vec<u8>, file: &FileTold<'_>) -> Result<(), NoMemory>
    ensures { OnOk result (out.new.items ≡ out.old.items ++ lines.line_of file.now) }
{
    append_shown(out, file.path.as_bytes())?;
    append(out, b": ")?;
    append_told(out, &file.told)?;
    append(out, b"\n")
}

fn append_warning_line(out: &mut Vec<u8>, path: &[u8], text: &[u8]) -> Result<(), NoMemory>
    ensures { OnOk result (out.new.items ≡ out.old.items ++ lines.warning_line path.now text.now) }
{
    append_shown(out, path)?;
    append(out, b": warning: ")?;
    append_shown(out, text)?;
    append(out, b"\n")
}

fn append_warning_lines(out: &mut Vec<u8>, path: &[u8], warnings: &[Text]) -> Result<(), NoMemory>
    ensures { OnOk result (out.new.items ≡ out.old.items ++ lines.warning_lines path.now warnings.now) }
{
    for i in 0..warnings.len() {
        append_warning_line(out, path, warnings[i].as_slice())?;
    }
    Ok(())
}

/// The line of a file, and those of its warnings.
pub(crate) fn append_lines(out: &mut Vec<u8>, file: &FileTold<'_>) -> Result<(), NoMemory>
    ensures { OnOk result (out.new.items ≡ out.old.items ++ lines.file_lines file.now) }
{
    append_line(out, file)?;
    append_warning_lines(out, file.path.as_bytes(), file.told.warnings())
}

/// The lines of these files.
pub(crate) fn lines_of(alloc: Global, files: &[FileTold<'_>]) -> Result<Vec<u8>, NoMemory>
    ensures { IfOk result (λ text. text.items ≡ lines.lines_of files.now) }
{
    let mut text = Vec::new(alloc);
    for file in files {
        append_lines(&mut text, file)?;
    }
    Ok(text)
}

pub(crate) fn are_taken(files: &[FileTold<'_>]) -> bool
    ensures { result ≡ list_all (λ f. lines.is_taken f.told) files.now }
{
    files.iter().all(|file| file.told.is_taken())
}

/// The status: 0 where each file is taken, else 3.
pub(crate) fn status_of(files: &[FileTold<'_>]) -> u8
    ensures status { result ≡ lines.status_of files.now }
    ensures values { (result ≡ 0) ⊎ (result ≡ 3) }
{
    if are_taken(files) { 0 } else { 3 }
}
