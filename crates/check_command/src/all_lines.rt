//! What is printed where all is asked for.
ghost use Rattle.std.specs.Prelude.{◌≡◌, ◌++◌, ◌⊎◌, IfOk, OnOk};
ghost use Rattle.std.specs.List.{list_all};
ghost use Rattle.check_command.specs.Lines as lines;

use crate::lines::{append_line, append_lines, are_taken};
use crate::told::{FileTold, Told};
use file_names::append_shown;
use hub_kinds::{NoMemory, Text, Texts};
use setup_errors::append;
use std::alloc::Global;

fn append_said(out: &mut Vec<u8>, path: &[u8], text: &[u8]) -> Result<(), NoMemory>
    ensures { OnOk result (out.new.items ≡ out.old.items ++ lines.said_line path.now text.now) }
{
    append_shown(out, path)?;
    append(out, b": ")?;
    append_shown(out, text)?;
    append(out, b"\n")
}

fn append_all(out: &mut Vec<u8>, path: &[u8], said: &[Text]) -> Result<(), NoMemory>
    ensures { OnOk result (out.new.items ≡ out.old.items ++ lines.said_lines path.now said.now) }
{
    for i in 0..said.len() {
        append_said(out, path, said[i].as_slice())?;
    }
    Ok(())
}

/// Adds one of the lines but for one that says this.
fn append_other(out: &mut Vec<u8>, path: &[u8], text: &[u8], other: &[u8]) -> Result<(), NoMemory>
    ensures { OnOk result (out.new.items ≡ out.old.items ++ lines.other_line path.now text.now other.now) }
{
    if other == text {
        return Ok(());
    }
    append_said(out, path, other)
}

/// The lines but for those that say this.
fn append_others(out: &mut Vec<u8>, path: &[u8], text: &[u8], said: &[Text]) -> Result<(), NoMemory>
    ensures { OnOk result (out.new.items ≡ out.old.items ++ lines.other_lines path.now text.now said.now) }
{
    for i in 0..said.len() {
        append_other(out, path, text, said[i].as_slice())?;
    }
    Ok(())
}

/// The words by which a file is refused.
fn refusal(told: &Told) -> &[u8]
    ensures { result.now ≡ lines.refusal told.now }
{
    match told {
        Told::Refused(text) => text.as_slice(),
        _ => &[],
    }
}

fn append_file(out: &mut Vec<u8>, file: &FileTold<'_>, said: &[Text]) -> Result<(), NoMemory>
    ensures { OnOk result (out.new.items ≡ out.old.items ++ lines.file_lines_all file.now said.now) }
{
    let path = file.path.as_bytes();
    if !file.told.is_taken() {
        append_line(out, file)?;
        return append_others(out, path, refusal(&file.told), said);
    }
    if said.is_empty() {
        return append_lines(out, file);
    }
    append_all(out, path, said)
}

/// What is said of the file at a place.
fn said_at(all: &[Texts], place: usize) -> &[Text]
    ensures { result.now ≡ lines.said_at all.entry.now place }
{
    match all.get(place) {
        None => &[],
        Some(said) => said.as_slice(),
    }
}

/// The lines of these files, of each of which this is said.
pub(crate) fn all_lines(
    alloc: Global,
    files: &[FileTold<'_>],
    all: &[Texts],
) -> Result<Vec<u8>, NoMemory>
    ensures { IfOk result (λ text. text.items ≡ lines.all_lines files.now all.now) }
{
    let mut text = Vec::new(alloc);
    for i in 0..files.len() {
        append_file(&mut text, &files[i], said_at(all, i))?;
    }
    Ok(text)
}

fn is_nothing(all: &[Texts]) -> bool
    ensures { result ≡ list_all lines.is_empty all.now }
{
    all.iter().all(|said| said.as_slice().is_empty())
}

/// The status: 0 where each file is taken, and nothing is said of any, else 3.
pub(crate) fn all_status(files: &[FileTold<'_>], all: &[Texts]) -> u8
    ensures status { result ≡ lines.all_status files.now all.now }
    ensures values { (result ≡ 0) ⊎ (result ≡ 3) }
{
    if are_taken(files) && is_nothing(all) {
        0
    } else {
        3
    }
}
