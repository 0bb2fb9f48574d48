ghost use Rattle.std.specs.Prelude.{◌≡◌, ◌≢◌, ◌≤◌, ◌⊎◌, Some, map, IfOk};
ghost use Rattle.std.specs.Io.KnownBytes.{Appends};
ghost use Rattle.explain_command.specs.CommandLine.{IsCommandLine, names_given, names_in, paths_in};
ghost use Rattle.explain_command.specs.Failure.{IsStatus, names_line};
ghost use Rattle.explain_command.specs.Reports.{IsExplained, IsNamedRun, IsNamesRefusal, IsReport, IsRun, status_of};

use crate::command::{Asked, PROGRAM, Paths, read_words};
use crate::files::{FileTold, append, failure_lines, lines_of, status_of, tell_files};
use file_names::append_shown;
use guide_names::Names;
use hub_kinds::NoMemory;
use names_file::JudgedNames;
use names_given::names_at;
use program_frame::{print_out, report_memory};
use std::alloc::Global;
use std::convert::AsStr;
use std::io::Write;
use std::rt::Files;
use system_io::print_text;

/// What is printed on standard output and on standard error, and what is reported of each file.
#[derive(Drop)]
struct Report<'a> {
    text: Vec<u8>,
    failures: Vec<u8>,
    told: Vec<FileTold<'a>>,
}

/// Runs the program on its arguments, without its name, and gives its exit status: 0 where it has printed the lines on each
/// file of acknowledgments, or a text that was asked for; 4 where a file is refused or cut off, after the lines on what is there, with a
/// line on `err` for each such file; 3 where the names file is refused; otherwise that of the failure whose line it has printed on `err`.
pub fn explain_main<R, S, O, E>(rt: &R, words: &[S], out: &mut O, err: &mut E) -> u8
where
    R: Files + AllocGlobal,
    S: AsStr,
    O: Write,
    E: Write,
    ensures status { IsStatus result }
    ensures silent { 2 ≤ result → result ≢ 4 → result ≢ 5 → out.new ≡ out.old }
    ensures quiet { result ≡ 0 → err.new ≡ err.old }
    ensures usage { result ≡ 2 → IsCommandLine (map S.text words.now) → ⊥ }
    ensures refused { result ≡ 3 → IsNamesRefusal (names_given (map S.text words.now)) }
    ensures printed { result ≢ 2 → result ≢ 3 → result ≢ 5 → result ≢ 6
        → IsRun (map S.text words.now) result (O.contents out.old) (O.contents out.new) }
{
    match read_words(rt.alloc(), words) {
        Ok(Asked::Explain(paths)) => explain_paths(rt, &paths, out, err),
        Ok(Asked::Show(text)) => print_out(PROGRAM, text.as_bytes(), 0, out, err),
        Err(mistake) => mistake.report(PROGRAM, err).status,
    }
}

/// Explains the acknowledgments in files, with the names of a names file, if one is given.
fn explain_paths<R, O, E>(rt: &R, paths: &Paths<'_>, out: &mut O, err: &mut E) -> u8
where
    R: Files + AllocGlobal,
    O: Write,
    E: Write,
    ensures status { (result ≡ 0) ⊎ ((result ≡ 3) ⊎ ((result ≡ 4) ⊎ ((result ≡ 5) ⊎ (result ≡ 6)))) }
    ensures silent { (result ≡ 3) ⊎ (result ≡ 6) → out.new ≡ out.old }
    ensures quiet { result ≡ 0 → err.new ≡ err.old }
    ensures refused { result ≡ 3 → IsNamesRefusal (names_in paths.now) }
    ensures printed { result ≢ 3 → result ≢ 5 → result ≢ 6
        → IsNamedRun (names_in paths.now) (paths_in paths.now) result (O.contents out.old) (O.contents out.new) }
{
    match paths.names {
        None => {
            let names = Names::none(rt.alloc());
            explain_files(rt, &names, paths.files.as_slice(), out, err)
        }
        Some(path) => explain_with_file(rt, path, paths.files.as_slice(), out, err),
    }
}

/// Explains the acknowledgments in the files at these paths, with the names of the names file at `names`.
fn explain_with_file<R, O, E>(rt: &R, names: &str, paths: &[&str], out: &mut O, err: &mut E) -> u8
where
    R: Files + AllocGlobal,
    O: Write,
    E: Write,
    ensures status { (result ≡ 0) ⊎ ((result ≡ 3) ⊎ ((result ≡ 4) ⊎ ((result ≡ 5) ⊎ (result ≡ 6)))) }
    ensures silent { (result ≡ 3) ⊎ (result ≡ 6) → out.new ≡ out.old }
    ensures quiet { result ≡ 0 → err.new ≡ err.old }
    ensures refused { result ≡ 3 → IsNamesRefusal (Some names.now) }
    ensures printed { result ≢ 3 → result ≢ 5 → result ≢ 6
        → IsNamedRun (Some names.now) (map (λ p. p.now) paths.now) result (O.contents out.old) (O.contents out.new) }
{
    match names_at(rt, names) {
        Ok(JudgedNames::Taken(words)) => explain_files(rt, &words, paths, out, err),
        Ok(JudgedNames::Refused(text)) => refuse_names(rt.alloc(), names, text.as_slice(), err),
        Err(_) => report_memory(PROGRAM, err).status,
    }
}

/// The line on a names file at a path that is refused in these words.
fn names_line(alloc: Global, path: &str, text: &[u8]) -> Result<Vec<u8>, NoMemory>
    ensures { IfOk result (λ line. line.items ≡ names_line path.now text.now) }
{
    let mut line = Vec::new(alloc);
    append(&mut line, b"nighthub_explain: ")?;
    append_shown(&mut line, path.as_bytes())?;
    append(&mut line, b": ")?;
    append_shown(&mut line, text)?;
    append(&mut line, b"\n")?;
    Ok(line)
}

/// Prints the line on a names file that is refused, and gives 3; 6 if memory is refused. A fault of standard error changes no status.
fn refuse_names<E: Write>(alloc: Global, path: &str, text: &[u8], err: &mut E) -> u8
    ensures { (result ≡ 3) ⊎ (result ≡ 6) }
{
    match names_line(alloc, path, text) {
        Ok(line) => {
            let _ = print_text(line.as_slice(), err);
            3
        }
        Err(_) => report_memory(PROGRAM, err).status,
    }
}

/// Explains the acknowledgments in the files at these paths, with the words of `names`.
fn explain_files<R, O, E>(rt: &R, names: &Names, paths: &[&str], out: &mut O, err: &mut E) -> u8
where
    R: Files + AllocGlobal,
    O: Write,
    E: Write,
    ensures status { (result ≡ 0) ⊎ ((result ≡ 4) ⊎ ((result ≡ 5) ⊎ (result ≡ 6))) }
    ensures silent { result ≡ 6 → out.new ≡ out.old }
    ensures quiet { result ≡ 0 → err.new ≡ err.old }
    ensures printed { result ≢ 5 → result ≢ 6
        → IsExplained names.now (map (λ p. p.now) paths.now) result (O.contents out.old) (O.contents out.new) }
{
    match report_of(rt, names, paths) {
        Ok(report) => give_report(&report, out, err),
        Err(_) => report_memory(PROGRAM, err).status,
    }
}

/// What is printed of the files at these paths. The only error is out of memory.
fn report_of<'a, R: Files + AllocGlobal>(
    rt: &R,
    names: &Names,
    paths: &[&'a str],
) -> Result<Report<'a>, NoMemory>
    ensures { IfOk result (λ r. IsReport names.now (map (λ p. p.now) paths.now) r.text.items r.failures.items
        (status_of r.told.items)) }
{
    let told = tell_files(rt, names, paths)?;
    let several = 1 < told.len();
    Ok(Report {
        text: lines_of(rt.alloc(), several, told.as_slice())?,
        failures: failure_lines(rt.alloc(), several, told.as_slice())?,
        told,
    })
}

/// Prints the lines on files, then the lines on those that are cut off or refused, and gives the status.
fn give_report<O: Write, E: Write>(report: &Report<'_>, out: &mut O, err: &mut E) -> u8
    ensures status { (result ≡ 5) ⊎ (result ≡ status_of report.now.told.items) }
    ensures values { (result ≡ 0) ⊎ ((result ≡ 4) ⊎ (result ≡ 5)) }
    ensures printed { result ≢ 5 → Appends (O.contents out.old) (O.contents out.new) report.now.text.items }
    ensures quiet { result ≡ 0 → err.new ≡ err.old }
{
    let wanted = status_of(report.told.as_slice());
    let status = print_out(PROGRAM, report.text.as_slice(), wanted, out, err);
    if status == 4 {
        let _ = print_text(report.failures.as_slice(), err);
    }
    status
}
