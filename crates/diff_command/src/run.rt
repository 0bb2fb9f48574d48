ghost use Rattle.std.specs.Prelude.{◌≡◌, ◌≢◌, ◌≤◌, ◌⊎◌, ℕ, List, IfErr, IfOk, map};
ghost use Rattle.diff_command.specs.CommandLine.{IsCommandLine};
ghost use Rattle.diff_command.specs.Failure.{IsStatus};
ghost use Rattle.diff_command.specs.Outcome.{AreRefused, IsBefore, IsDiff, IsRefusal, IsReport, IsRun};

use crate::command::{Asked, PROGRAM, Paths, read_words};
use crate::failure::Failure;
use crate::guides::{guide_at, refusal};
use crate::samples::report_with;
use check_command::Judged;
use diff_report::Report;
use program_frame::print_out;
use std::convert::AsStr;
use std::io::Write;
use std::rt::Files;

/// Runs the program on its arguments, without its name, and gives its exit status: 0 if each set that meets the old guide meets the new
/// one, as far as the guides are compared, or if a text that was asked for is printed; 1 if a difference isn't wider; otherwise that of
/// the failure whose line it has printed on `err`.
pub fn diff_main<R, S, O, E>(rt: &R, words: &[S], out: &mut O, err: &mut E) -> u8
where
    R: Files + AllocGlobal,
    S: AsStr,
    O: Write,
    E: Write,
    ensures status { IsStatus result }
    ensures silent { 2 ≤ result → result ≢ 5 → out.new ≡ out.old }
    ensures quiet { result ≤ 1 → err.new ≡ err.old }
    ensures usage { result ≡ 2 → IsCommandLine (map S.text words.now) → ⊥ }
    ensures refused { result ≡ 3 → IsRefusal (map S.text words.now) }
    ensures printed { result ≤ 1 → IsRun (map S.text words.now) result (O.contents out.old) (O.contents out.new) }
{
    match read_words(rt.alloc(), words) {
        Ok(Asked::Compare(paths)) => compare_files(rt, &paths, out, err),
        Ok(Asked::Show(text)) => print_out(PROGRAM, text.as_bytes(), 0, out, err),
        Err(mistake) => mistake.report(PROGRAM, err).status,
    }
}

/// Compares the guide files at two paths.
fn compare_files<R, O, E>(rt: &R, paths: &Paths<'_>, out: &mut O, err: &mut E) -> u8
where
    R: Files + AllocGlobal,
    O: Write,
    E: Write,
    ensures status { IsStatus result }
    ensures words { result ≢ 2 }
    ensures silent { 2 ≤ result → result ≢ 5 → out.new ≡ out.old }
    ensures quiet { result ≤ 1 → err.new ≡ err.old }
    ensures refused { result ≡ 3 → (lines : List ℕ) × AreRefused paths.now.old.now paths.now.new.now lines }
    ensures printed { result ≤ 1 → IsDiff paths.now.old.now paths.now.new.now result (O.contents out.old) (O.contents out.new) }
{
    match report_of(rt, paths) {
        Ok(report) => print_out(PROGRAM, report.text.as_slice(), report.status, out, err),
        Err(failure) => failure.report(err).status,
    }
}

/// What is printed of the guide files at two paths, after samples are put into a folder, if one is given.
fn report_of<R: Files + AllocGlobal>(rt: &R, paths: &Paths<'_>) -> Result<Report, Failure>
    ensures report { IfOk result (λ report. IsReport paths.now.old.now paths.now.new.now report.text.items report.status) }
    ensures values { IfOk result (λ report. (report.status ≡ 0) ⊎ (report.status ≡ 1)) }
    ensures before { IfErr result (IsBefore paths.now.old.now paths.now.new.now) }
{
    let before = guide_at(rt, paths.old)?;
    let after = guide_at(rt, paths.new)?;
    match &before {
        Judged::Refused(_) => Err(refusal(rt.alloc(), paths, &before, &after)?),
        Judged::Taken(was) => match &after {
            Judged::Refused(_) => Err(refusal(rt.alloc(), paths, &before, &after)?),
            Judged::Taken(is) => report_with(rt, was, is, paths.samples),
        },
    }
}
