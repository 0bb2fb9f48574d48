//! What is reported of files, one after another.
ghost use Rattle.std.specs.Prelude.{◌≡◌, ◌++◌, ◌∷◌, ◌⊎◌, [], None, true, map, is_none, codes, if◌then◌else◌, IfErr};
ghost use Rattle.std.specs.Prelude.{IfOk, OnOk};
ghost use Rattle.explain_command.specs.Failure.{line_in, line_of, other_words, rest_of, said_in, subject_line};
ghost use Rattle.explain_command.specs.Reports as reports;

use crate::ends::SetId;
use crate::explain::{Account, explained_file};
use crate::failure::Failure;
use file_names::append_shown;
use guide_names::Names;
use hub_kinds::NoMemory;
use std::alloc::Global;
use std::io;
use std::io::Read;
use std::rt::Files;
use system_io::{Opened, open_at};

/// What is reported of a file.
#[derive(Debug, Drop)]
pub enum Told {
    /// What its acknowledgments report, in words.
    Explained(Account),
    /// Why it is refused.
    Refused(Failure),
}

/// A file, by its path, and what is reported of it.
#[derive(Debug, Drop)]
pub struct FileTold<'a> {
    pub path: &'a str,
    pub told: Told,
}

impl Told {
    ghost use Rattle.std.specs.Prelude.{◌≡◌};
    ghost use Rattle.explain_command.specs.Reports.{failure_of, own_lines};

    /// The lines on the file; of one that is refused none.
    fn lines(&self) -> &[u8]
        ensures { result.now ≡ own_lines self.now }
    {
        match self {
            Told::Explained(account) => account.lines.as_slice(),
            Told::Refused(_) => &[],
        }
    }

    /// Where the file is cut off, or why it is refused.
    fn failure(&self) -> Option<Failure>
        ensures { result ≡ failure_of self.now }
    {
        match self {
            Told::Explained(account) => account.cut.map(Failure::CutOff),
            Told::Refused(failure) => Some(*failure),
        }
    }
}

/// What is reported of a file, by what explaining it gave. The only error is out of memory.
fn reported(account: Result<Account, Failure>) -> Result<Told, NoMemory>
    ensures { reports.IsReported account result }
{
    match account {
        Ok(account) => Ok(Told::Explained(account)),
        Err(Failure::Memory) => Err(NoMemory),
        Err(failure) => Ok(Told::Refused(failure)),
    }
}

/// What is reported of a file that was opened, which `opened` gives. The only error is out of memory.
pub fn tell_opened<I: Read + Drop>(
    alloc: Global,
    names: &Names,
    opened: io::Result<I>,
) -> Result<Told, NoMemory>
    ensures told { IfOk opened (λ input. IfOk result (reports.IsTold names.now (I.remaining input))) }
    ensures closed { IfErr opened (λ error. IfOk result (λ told. told ≡ Told.Refused Failure.Input)) }
{
    reported(explained_file(alloc, names, opened))
}

/// What is reported of the file at `path`. The only error is out of memory.
fn told_at<'a, R: Files + AllocGlobal>(
    rt: &R,
    names: &Names,
    path: &'a str,
) -> Result<FileTold<'a>, NoMemory>
    ensures told { IfOk result (λ file. reports.IsTold names.now None file.told) }
    ensures path { IfOk result (λ file. file.path.now ≡ path.entry.now) }
{
    told_of(rt.alloc(), names, path, open_at(rt, path))
}

/// What is reported of the file at `path`, which `opened` gives. The only error is out of memory.
fn told_of<'a, I: Read + Drop>(
    alloc: Global,
    names: &Names,
    path: &'a str,
    opened: Opened<'a, I>,
) -> Result<FileTold<'a>, NoMemory>
    requires { opened.path ≡ path.now }
    ensures told { IfOk result (λ file. reports.IsTold names.now None file.told) }
    ensures path { IfOk result (λ file. file.path.now ≡ path.entry.now) }
{
    let told = tell_opened(alloc, names, opened.into_answer())?;
    Ok(FileTold { path, told })
}

/// What is reported of the files at these paths, in their order. The only error is out of memory.
pub(crate) fn tell_files<'a, R: Files + AllocGlobal>(
    rt: &R,
    names: &Names,
    paths: &[&'a str],
) -> Result<Vec<FileTold<'a>>, NoMemory>
    ensures told { IfOk result (λ told. reports.AreTold names.now told.items) }
    ensures paths { IfOk result (λ told. reports.paths_of told.items ≡ map (λ p. p.now) paths.now) }
{
    let mut files = Vec::new(rt.alloc());
    for path in paths {
        files.push(told_at(rt, names, path)?)?;
    }
    Ok(files)
}

pub(crate) fn append(out: &mut Vec<u8>, text: &[u8]) -> Result<(), NoMemory>
    ensures { OnOk result (out.new.items ≡ out.old.items ++ text.now) }
{
    out.extend_from_slice(text)?;
    Ok(())
}

/// A path, before what is said of its file.
fn path_words(alloc: Global, path: &str) -> Result<Vec<u8>, NoMemory>
    ensures { IfOk result (λ name. name.items ≡ reports.path_words path.now) }
{
    let mut name = Vec::new(alloc);
    append_shown(&mut name, path.as_bytes())?;
    append(&mut name, b": ")?;
    Ok(name)
}

/// Adds a byte, with the name before it where a line begins.
fn append_byte(out: &mut Vec<u8>, name: &[u8], begins: bool, byte: u8) -> Result<(), NoMemory>
    ensures { OnOk result (out.new.items ≡ out.old.items ++ (if begins then name.now ++ (byte ∷ []) else byte ∷ [])) }
{
    if begins {
        append(out, name)?;
    }
    append(out, &[byte])
}

/// Adds lines, each with this name in front.
fn append_named(out: &mut Vec<u8>, name: &[u8], lines: &[u8]) -> Result<(), NoMemory>
    ensures { OnOk result (out.new.items ≡ out.old.items ++ reports.named_lines name.now true lines.now) }
{
    let mut begins = true;
    for i in 0..lines.len() {
        append_byte(out, name, begins, lines[i])?;
        begins = lines[i] == b'\n';
    }
    Ok(())
}

/// Adds the lines on a file, one of several or the only one.
fn append_file(
    alloc: Global,
    out: &mut Vec<u8>,
    several: bool,
    file: &FileTold<'_>,
) -> Result<(), NoMemory>
    ensures { OnOk result (out.new.items ≡ out.old.items ++ reports.file_lines several file.now) }
{
    if several {
        let name = path_words(alloc, file.path)?;
        append_named(out, name.as_slice(), file.told.lines())
    } else {
        append(out, file.told.lines())
    }
}

/// The lines on files.
pub(crate) fn lines_of(
    alloc: Global,
    several: bool,
    files: &[FileTold<'_>],
) -> Result<Vec<u8>, NoMemory>
    ensures { IfOk result (λ text. text.items ≡ reports.lines_of several files.now) }
{
    let mut text = Vec::new(alloc);
    for i in 0..files.len() {
        append_file(alloc, &mut text, several, &files[i])?;
    }
    Ok(text)
}

fn is_whole(file: &FileTold<'_>) -> bool
    ensures { result ≡ is_none (reports.failure_of file.now.told) }
{
    file.told.failure().is_none()
}

fn are_whole(files: &[FileTold<'_>]) -> bool
    ensures { result ≡ reports.are_whole files.now }
{
    files.iter().all(|file| is_whole(file))
}

/// The status: 0 where each file is explained, and whole, else 4.
pub(crate) fn status_of(files: &[FileTold<'_>]) -> u8
    ensures status { result ≡ reports.status_of files.now }
    ensures values { (result ≡ 0) ⊎ (result ≡ 4) }
{
    if are_whole(files) { 0 } else { 4 }
}

fn append_text(out: &mut Vec<u8>, text: &str) -> Result<(), NoMemory>
    ensures { OnOk result (out.new.items ≡ out.old.items ++ text.now) }
{
    append(out, text.as_bytes())
}

fn append_other(out: &mut Vec<u8>, id: SetId) -> Result<(), NoMemory>
    ensures { OnOk result (out.new.items ≡ out.old.items ++ other_words id) }
{
    append(out, &[id.first, id.second, id.third])?;
    append(out, b": this isn't an acknowledgment\n")
}

fn append_rest(out: &mut Vec<u8>, failure: Failure) -> Result<(), NoMemory>
    ensures { OnOk result (out.new.items ≡ out.old.items ++ rest_of failure) }
{
    match failure {
        Failure::OtherSet(id) => append_other(out, id),
        Failure::Input
        | Failure::NoHeader
        | Failure::TellsNothing
        | Failure::Is997
        | Failure::CutOff(_)
        | Failure::Memory => append(out, b"\n"),
    }
}

fn append_subject(out: &mut Vec<u8>, failure: Failure) -> Result<(), NoMemory>
    ensures { OnOk result (out.new.items ≡ out.old.items ++ subject_line failure) }
{
    append_text(out, failure.lead())?;
    append_rest(out, failure)
}

fn append_line(out: &mut Vec<u8>, failure: Failure) -> Result<(), NoMemory>
    ensures { OnOk result (out.new.items ≡ out.old.items ++ line_of failure) }
{
    append(out, b"nighthub_explain: ")?;
    append_subject(out, failure)
}

fn append_said_in(out: &mut Vec<u8>, path: &[u8], failure: Failure) -> Result<(), NoMemory>
    ensures { OnOk result (out.new.items ≡ out.old.items ++ said_in path.now failure) }
{
    append_shown(out, path)?;
    append(out, b": ")?;
    append_subject(out, failure)
}

fn append_line_in(out: &mut Vec<u8>, path: &[u8], failure: Failure) -> Result<(), NoMemory>
    ensures { OnOk result (out.new.items ≡ out.old.items ++ line_in path.now failure) }
{
    append(out, b"nighthub_explain: ")?;
    append_said_in(out, path, failure)
}

/// Adds the line of standard error on a file that is cut off or refused.
fn append_failure(out: &mut Vec<u8>, several: bool, file: &FileTold<'_>) -> Result<(), NoMemory>
    ensures { OnOk result (out.new.items ≡ out.old.items ++ reports.file_failure several file.now) }
{
    match file.told.failure() {
        None => Ok(()),
        Some(failure) => {
            if several {
                append_line_in(out, file.path.as_bytes(), failure)
            } else {
                append_line(out, failure)
            }
        }
    }
}

/// The lines of standard error on files that are cut off or refused, in the order of the files.
pub(crate) fn failure_lines(
    alloc: Global,
    several: bool,
    files: &[FileTold<'_>],
) -> Result<Vec<u8>, NoMemory>
    ensures { IfOk result (λ text. text.items ≡ reports.failure_lines several files.now) }
{
    let mut text = Vec::new(alloc);
    for i in 0..files.len() {
        append_failure(&mut text, several, &files[i])?;
    }
    Ok(text)
}
