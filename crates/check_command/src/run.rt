ghost use Rattle.std.specs.Prelude.{◌≡◌, ◌≢◌, ◌≤◌, ◌⊎◌, IfOk, map};
ghost use Rattle.check_command.specs.CommandLine.{IsCommandLine};
ghost use Rattle.check_command.specs.Files.{paths_in};
ghost use Rattle.check_command.specs.Runs.{IsChecked, IsPrinted, IsReport};
ghost use Rattle.check_command.specs.Lines as lines;

use crate::all_lines::{all_lines, all_status};
use crate::command::{Asked, Options, PROGRAM, read_words};
use crate::files::read_files;
use crate::further::said_if;
use crate::judge::tell_files;
use crate::lines::{lines_of, status_of};
use crate::told::FileTold;
use hub_kinds::{Items, NoMemory, Texts};
use program_frame::{print_out, report_memory};
use std::alloc::Global;
use std::convert::AsStr;
use std::io::Write;
use std::rt::Files;

/// What is printed, and the status.
#[derive(Drop)]
struct Report {
    text: Vec<u8>,
    status: u8,
}

/// Runs the check on its arguments, without its name, and gives its exit status: 0 or 3 where it has reported on each file,
/// 0 where it has printed a text that was asked for, otherwise that of the failure whose line it has printed on `err`.
pub fn check_main<R, S, O, E>(rt: &R, words: &[S], out: &mut O, err: &mut E) -> u8
where
    R: Files + AllocGlobal,
    S: AsStr,
    O: Write,
    E: Write,
    ensures status { result ≤ 6 }
    ensures silent { 2 ≤ result → result ≢ 3 → result ≢ 5 → out.new ≡ out.old }
    ensures quiet { result ≢ 2 → result ≢ 5 → result ≢ 6 → err.new ≡ err.old }
    ensures usage { result ≡ 2 → IsCommandLine (map S.text words.now) → ⊥ }
    ensures printed { result ≢ 2 → result ≢ 5 → result ≢ 6
        → IsPrinted (map S.text words.now) result (O.contents out.old) (O.contents out.new) }
{
    match read_words(rt.alloc(), words) {
        Ok(Asked::Check(options)) => check(rt, &options, out, err),
        Ok(Asked::Show(text)) => print_out(PROGRAM, text.as_bytes(), 0, out, err),
        Err(mistake) => mistake.report(PROGRAM, err).status,
    }
}

/// Reports the files that these options name.
fn check<R, O, E>(rt: &R, options: &Options<'_>, out: &mut O, err: &mut E) -> u8
where
    R: Files + AllocGlobal,
    O: Write,
    E: Write,
    ensures status { (result ≡ 0) ⊎ ((result ≡ 3) ⊎ ((result ≡ 5) ⊎ (result ≡ 6))) }
    ensures silent { result ≡ 6 → out.new ≡ out.old }
    ensures quiet { result ≢ 5 → result ≢ 6 → err.new ≡ err.old }
    ensures printed { result ≢ 2 → result ≢ 5 → result ≢ 6
        → IsChecked (paths_in options.now) options.now.all result (O.contents out.old) (O.contents out.new) }
{
    match report_of(rt, options) {
        Ok(report) => print_out(PROGRAM, report.text.as_slice(), report.status, out, err),
        Err(_) => report_memory(PROGRAM, err).status,
    }
}

fn report_of<R: Files + AllocGlobal>(rt: &R, options: &Options<'_>) -> Result<Report, NoMemory>
    ensures report { IfOk result (λ report. IsReport (paths_in options.now) options.now.all report.text.items report.status) }
    ensures status { IfOk result (λ report. (report.status ≡ 0) ⊎ (report.status ≡ 3)) }
{
    let files = read_files(rt, options)?;
    let told = tell_files(rt.alloc(), &files)?;
    let said = said_if(rt.alloc(), options.all, &files)?;
    Ok(Report {
        text: text_of(rt.alloc(), told.as_slice(), &said)?,
        status: status_with(told.as_slice(), &said),
    })
}

/// The lines of files, of which this is said where all is asked for.
fn text_of(
    alloc: Global,
    told: &[FileTold<'_>],
    said: &Option<Items<Texts>>,
) -> Result<Vec<u8>, NoMemory>
    ensures { IfOk result (λ text. text.items ≡ lines.text_of told.now said.now) }
{
    match said {
        None => lines_of(alloc, told),
        Some(all) => all_lines(alloc, told, all.as_slice()),
    }
}

fn status_with(told: &[FileTold<'_>], said: &Option<Items<Texts>>) -> u8
    ensures status { result ≡ lines.status_with told.now said.now }
    ensures values { (result ≡ 0) ⊎ (result ≡ 3) }
{
    match said {
        None => status_of(told),
        Some(all) => all_status(told, all.as_slice()),
    }
}
