ghost use Rattle.std.specs.Prelude.{◌≡◌, ℕ, List, Option, None, false, Ok, IfErr, IfOk, IsErrAnd, IsOkAnd, map};
ghost use Rattle.std.specs.IoError.{error_kind};
ghost use Rattle.gather_files.specs.Gathering.{IsGathered};
ghost use Rattle.gather_command.specs.Failure.{IsMemoryOr, IsOfFile};
ghost use Rattle.gather_command.specs.Members.{AddsFile, AreGathered, PutsFile};
ghost use Rattle.gather_command.specs.Part.{TakesBack};

use crate::changed::is_changed;
use crate::failure::Failure;
use crate::lines::append_line;
use crate::outcome::Outcome;
use crate::part::Part;
use crate::total::{Total, is_over, no_total, with_file};
use file_names::is_not_utf_8;
use gather_files::{Gathered, gather_file};
use std::alloc::Global;
use std::fs;
use std::io::{Read, Write};
use std::rt::Files;
use system_io::{Opened, Reader, open_at};

/// How many bytes of a file are read before it is written on.
const WINDOW: usize = 1_048_576;

/// What is said of the files that were gathered.
#[derive(Debug, Drop)]
pub struct Gathering {
    /// A line for each.
    pub lines: Vec<u8>,
    /// How many are taken, cut off and set aside.
    pub total: Total,
}

/// Writes the files at these paths one after another. Errors: the first file that can't be read or is too long; a write that fails; out
/// of memory. Then some of the files may be written.
pub fn gather_all<'a, R: Files + AllocGlobal, W: Part>(
    rt: &R,
    job_out: &'a str,
    paths: &[&'a str],
    out: &mut W,
) -> Result<Gathering, Failure<'a>>
    ensures gathered { IfOk result (λ g. AreGathered (map (λ p. p.now) paths.now) (W.contents out.old) (W.contents out.new)
        g.lines.items g.total) }
{
    let mut lines = Vec::new(rt.alloc());
    let mut total = no_total();
    for path in paths {
        let outcome = gather_path(rt, job_out, path, out)?;
        if is_over(total, outcome) {
            return Err(Failure::TooLong(path));
        }
        append_line(&mut lines, path, outcome, total.bytes)?;
        total = with_file(total, outcome);
    }
    Ok(Gathering { lines, total })
}

/// Writes the file at `path` to `out`, unless its name isn't UTF-8 or it changes while it is read.
fn gather_path<'a, R: Files + AllocGlobal, W: Part>(
    rt: &R,
    job_out: &'a str,
    path: &'a str,
    out: &mut W,
) -> Result<Outcome, Failure<'a>>
    ensures gathered { IfOk result (AddsFile None (W.contents out.old) (W.contents out.new)) }
{
    if is_not_utf_8(path) {
        return Ok(Outcome::NameNotUtf8);
    }
    let before = fs::metadata(rt, path);
    let gathered = gather_opened(rt.alloc(), job_out, path, open_at(rt, path), out)?;
    let after = fs::metadata(rt, path);
    settled(job_out, gathered, is_changed(&before, &after), out)
}

/// What became of a file that was read; if it is changed, what was written of it is taken back.
fn settled<'a, W: Part>(
    job_out: &'a str,
    gathered: Gathered,
    changed: bool,
    out: &mut W,
) -> Result<Outcome, Failure<'a>>
    ensures settled { IfOk result (λ outcome. (declared was : Option (List ℕ)) → PutsFile declared was (W.contents out.old) gathered
        → AddsFile None was (W.contents out.new) outcome) }
    ensures unchanged { changed ≡ false → result ≡ Ok (Outcome.Read gathered) }
{
    if !changed {
        return Ok(Outcome::Read(gathered));
    }
    match gathered {
        Gathered::Taken(taken) => take_back(job_out, taken.len, out),
        Gathered::SetAside(_) => Ok(Outcome::Changed),
    }
}

fn take_back<'a, W: Part>(job_out: &'a str, len: u64, out: &mut W) -> Result<Outcome, Failure<'a>>
    ensures back { IfOk result (λ outcome. (outcome ≡ Outcome.Changed) × TakesBack (W.contents out.old) (W.contents out.new) len) }
{
    match out.take_back(len) {
        Ok(()) => Ok(Outcome::Changed),
        Err(error) => Err(Failure::of_fault(error, Failure::Output(job_out))),
    }
}

/// Writes the file at `path` to `out`, where `opened` is what opening it gave.
fn gather_opened<'a, I: Read + Drop, W: Write>(
    alloc: Global,
    job_out: &'a str,
    path: &'a str,
    opened: Opened<'a, I>,
    out: &mut W,
) -> Result<Gathered, Failure<'a>>
    requires { opened.path ≡ path.now }
    ensures gathered { IfOk result (λ g. IsOkAnd opened.entry.answer (λ file. IsGathered (I.remaining file) (W.contents out.old)
        (W.contents out.new) g)) }
    ensures puts { IfOk result (PutsFile None (W.contents out.old) (W.contents out.new)) }
    ensures closed { IfErr opened.entry.answer (λ error. IsErrAnd result (IsMemoryOr (error_kind error) (Failure.Input path.entry))) }
    ensures failed { IfOk opened.entry.answer (λ _. IfErr result (IsOfFile path.entry job_out.entry)) }
{
    match opened.into_answer() {
        Ok(file) => gather_reader(alloc, job_out, path, file, out),
        Err(error) => Err(Failure::of_fault(error, Failure::Input(path))),
    }
}

/// Writes what `file`, a reader of the file at `path`, gives to `out`.
fn gather_reader<'a, I: Read + Drop, W: Write>(
    alloc: Global,
    job_out: &'a str,
    path: &'a str,
    file: I,
    out: &mut W,
) -> Result<Gathered, Failure<'a>>
    ensures gathered { IfOk result (IsGathered (I.remaining file) (W.contents out.old) (W.contents out.new)) }
    ensures failed { IfErr result (IsOfFile path.entry job_out.entry) }
{
    let mut reader = Reader::new(file);
    match gather_file(alloc, &mut reader, out, WINDOW) {
        Ok(gathered) => Ok(gathered),
        Err(fault) => Err(Failure::of_gathering(fault, path, job_out)),
    }
}
