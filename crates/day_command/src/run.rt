ghost use Rattle.std.specs.Prelude.{◌≡◌, ◌≢◌, ◌≤◌, ◌↔◌, ◌⊎◌, true, map, IfErr, IfOk};
ghost use Rattle.std.specs.Io.KnownBytes.{Appends};
ghost use Rattle.night_breaches.specs.Breaches.{last_name};
ghost use Rattle.day_command.specs.CommandLine.{IsCommandLine};
ghost use Rattle.day_command.specs.Failure.{IsBefore, IsStatus};
ghost use Rattle.day_command.specs.Outcome.{AreJudged, AsksForAgain, AsksForExport, IsBoth, IsChecked, IsExported, IsPaged};
ghost use Rattle.day_command.specs.Outcome.{IsPrintedAgain, IsReport, IsRun, IsSearched, named_last};

use crate::again::{Again, again_of};
use crate::command::{Asked, PROGRAM, read_words};
use crate::export::{Export, export_nights};
use crate::failure::Failure;
use crate::find::{find_nights, status_of};
use crate::page::page_of;
use hub_kinds::NoMemory;
use hub_ledger::NightEntry;
use night_folder::{PaperAt, entries_in, first_line, read_nights, read_paper};
use night_marks::{NightMark, in_order};
use night_review::{Report, judged, limit, nights_at};
use program_frame::print_out;
use record_review::{RecordsReport, review_records};
use sets_again::Wanted;
use std::convert::AsStr;
use std::io::Write;
use std::rt::{Clock, Files};
use system_io::print_text;
use track_read::Form;

/// Runs the program on its arguments, without its name, and gives its exit status: 0 or 1 by what the nights are, as `IsRun` says, or
/// that of the failure whose line it has printed on `err`.
pub fn day_main<R, S, O, E>(rt: &R, words: &[S], out: &mut O, err: &mut E) -> u8
where
    R: Files + Clock + AllocGlobal + Clone + Drop,
    S: AsStr,
    O: Write,
    E: Write,
    ensures status { IsStatus result }
    ensures silent { 2 ≤ result → result ≢ 5 → out.new ≡ out.old }
    ensures quiet { result ≤ 1 → (err.new ≡ err.old) ⊎ (AsksForExport (map S.text words.now) ⊎ AsksForAgain (map S.text words.now)) }
    ensures usage { result ≡ 2 → IsCommandLine (map S.text words.now) → ⊥ }
    ensures printed { result ≤ 1 → IsRun (map S.text words.now) result (O.contents out.old) (O.contents out.new)
        (E.contents err.old) (E.contents err.new) }
{
    match read_words(rt.alloc(), words) {
        Ok(Asked::Check(nights)) => check_nights(rt, nights, out, err),
        Ok(Asked::Find(nights, text)) => print_found(rt, nights, text, out, err),
        Ok(Asked::Export(nights, form)) => print_exported(rt, nights, form, out, err),
        Ok(Asked::Page(nights, night)) => print_page(rt, nights, night, out, err),
        Ok(Asked::Again(nights, night, wanted)) => {
            print_again(rt, nights, night, wanted, out, err)
        }
        Ok(Asked::Show(text)) => print_out(PROGRAM, text.as_bytes(), 0, out, err),
        Err(mistake) => mistake.report(PROGRAM, err).status,
    }
}

/// Checks the nights in the folder at the path `nights`.
fn check_nights<R, O, E>(rt: &R, nights: &str, out: &mut O, err: &mut E) -> u8
where
    R: Files + Clock + AllocGlobal + Clone + Drop,
    O: Write,
    E: Write,
    ensures status { IsStatus result }
    ensures words { result ≢ 2 }
    ensures silent { 2 ≤ result → result ≢ 5 → out.new ≡ out.old }
    ensures quiet { result ≤ 1 → err.new ≡ err.old }
    ensures printed { result ≤ 1 → IsChecked nights.now result (O.contents out.old) (O.contents out.new) }
{
    match report_of(rt, nights) {
        Ok(report) => print_out(PROGRAM, report.text.as_slice(), report.status, out, err),
        Err(failure) => failure.report(err).status,
    }
}

/// Prints which documents have `text`, in the nights of the folder at the path `nights`.
fn print_found<R, O, E>(rt: &R, nights: &str, text: &str, out: &mut O, err: &mut E) -> u8
where
    R: Files + AllocGlobal + Clone + Drop,
    O: Write,
    E: Write,
    ensures status { IsStatus result }
    ensures words { result ≢ 2 }
    ensures silent { 2 ≤ result → result ≢ 5 → out.new ≡ out.old }
    ensures quiet { result ≤ 1 → err.new ≡ err.old }
    ensures printed { result ≤ 1 → IsSearched nights.now text.now result (O.contents out.old) (O.contents out.new) }
{
    match find_nights(rt, nights, text) {
        Ok(report) => print_out(PROGRAM, report.text.as_slice(), report.status, out, err),
        Err(failure) => failure.report(err).status,
    }
}

/// Prints the page of the night `night` of the folder at the path `nights`.
fn print_page<R, O, E>(rt: &R, nights: &str, night: &str, out: &mut O, err: &mut E) -> u8
where
    R: Files + AllocGlobal + Clone + Drop,
    O: Write,
    E: Write,
    ensures status { IsStatus result }
    ensures words { result ≢ 2 }
    ensures silent { 2 ≤ result → result ≢ 5 → out.new ≡ out.old }
    ensures quiet { result ≤ 1 → err.new ≡ err.old }
    ensures printed { result ≤ 1 → IsPaged nights.now night.now result (O.contents out.old) (O.contents out.new) }
{
    match page_of(rt, nights, night) {
        Ok(report) => print_out(PROGRAM, report.text.as_slice(), report.status, out, err),
        Err(failure) => failure.report(err).status,
    }
}

/// Prints the sets that go in again of the night `night` of the folder at the path `nights`; if there is none, a line on standard error.
fn print_again<R, O, E>(
    rt: &R,
    nights: &str,
    night: &str,
    wanted: Wanted,
    out: &mut O,
    err: &mut E,
) -> u8
where
    R: Files + AllocGlobal + Clone + Drop,
    O: Write,
    E: Write,
    ensures status { IsStatus result }
    ensures words { result ≢ 2 }
    ensures silent { 2 ≤ result → result ≢ 5 → out.new ≡ out.old }
    ensures printed { result ≤ 1 → IsPrintedAgain nights.now night.now wanted result (O.contents out.old) (O.contents out.new)
        (E.contents err.old) (E.contents err.new) }
{
    match again_of(rt, nights, night, wanted) {
        Ok(sets) => finish_again(&sets, out, err),
        Err(failure) => failure.report(err).status,
    }
}

/// Prints the tables of the nights of the folder at the path `nights`, and on standard error those that weren't read.
fn print_exported<R, O, E>(rt: &R, nights: &str, form: Form, out: &mut O, err: &mut E) -> u8
where
    R: Files + AllocGlobal + Clone + Drop,
    O: Write,
    E: Write,
    ensures status { IsStatus result }
    ensures words { result ≢ 2 }
    ensures silent { 2 ≤ result → result ≢ 5 → out.new ≡ out.old }
    ensures printed { result ≤ 1 → IsExported nights.now form result (O.contents out.old) (O.contents out.new)
        (E.contents err.old) (E.contents err.new) }
{
    match export_nights(rt, nights, form) {
        Ok(all) => finish_both(&all, out, err),
        Err(failure) => failure.report(err).status,
    }
}

/// Prints the line that there is no set, or the sets that go in again, and gives the status, or that of a failure of an output.
fn finish_again<O: Write, E: Write>(sets: &Again, out: &mut O, err: &mut E) -> u8
    ensures values { (result ≡ 0) ⊎ ((result ≡ 1) ⊎ (result ≡ 5)) }
    ensures status { result ≢ 5 → ((result ≡ 0) ↔ (sets.now.is_found ≡ true)) }
    ensures printed { result ≢ 5 → Appends (O.contents out.old) (O.contents out.new) sets.now.text.items }
    ensures said { result ≢ 5 → Appends (E.contents err.old) (E.contents err.new) sets.now.line.items }
{
    if print_text(sets.line.as_slice(), err).is_err() {
        return Failure::Stderr.report(err).status;
    }
    print_out(
        PROGRAM,
        sets.text.as_slice(),
        status_of(sets.is_found),
        out,
        err,
    )
}

/// Prints an export, first the tables that weren't read, and gives its status, or that of a failure of an output.
fn finish_both<O: Write, E: Write>(all: &Export, out: &mut O, err: &mut E) -> u8
    ensures values { (result ≡ 0) ⊎ ((result ≡ 1) ⊎ (result ≡ 5)) }
    ensures status { result ≢ 5 → ((result ≡ 0) ↔ (all.now.all_read ≡ true)) }
    ensures printed { result ≢ 5 → Appends (O.contents out.old) (O.contents out.new) all.now.text.items }
    ensures named { result ≢ 5 → Appends (E.contents err.old) (E.contents err.new) all.now.unread.items }
{
    if print_text(all.unread.as_slice(), err).is_err() {
        return Failure::Stderr.report(err).status;
    }
    print_out(
        PROGRAM,
        all.text.as_slice(),
        status_of(all.all_read),
        out,
        err,
    )
}

/// The name of the last of `entries`.
fn last_name(entries: &[NightEntry]) -> &[u8]
    ensures { result.now ≡ last_name entries.entry.now }
{
    match entries.last() {
        None => b"",
        Some(night) => night.name.as_slice(),
    }
}

/// The night that is named last: by the file .last; if that can't be read, the last night that was read, since the nights of a hub have no
/// such file.
fn named_last<'a>(last: &'a PaperAt, entries: &'a [NightEntry]) -> &'a [u8]
    ensures { result.now ≡ named_last last.entry.now.bytes entries.entry.now }
{
    match last.bytes() {
        Some(bytes) => first_line(bytes),
        None => last_name(entries),
    }
}

/// Reads the nights `order` of the folder at the path `nights`, and says whether they continue.
fn nights_report<R: Files + Clock + AllocGlobal + Clone + Drop>(
    rt: &R,
    nights: &[u8],
    order: &[&NightMark],
) -> Result<Report, Failure>
    ensures report { IfOk result (λ report.
        AreJudged nights.now (map (λ n. n.now) order.now) report.text.items report.status) }
    ensures values { IfOk result (λ report. (report.status ≡ 0) ⊎ (report.status ≡ 1)) }
    ensures before { IfErr result IsBefore }
{
    let alloc = rt.alloc();
    let limit = limit(rt)?;
    let (entries, bad) = entries_in(alloc, read_nights(rt, nights, order)?)?;
    let last = read_paper(rt, nights, b".last")?;
    let report = judged(
        alloc,
        order,
        entries.as_slice(),
        bad.as_slice(),
        limit.as_bytes(),
        named_last(&last, entries.as_slice()),
    )?;
    Ok(report)
}

/// What is printed of nights, and after it what is printed of their `records`.
fn with_records(report: Report, records: &RecordsReport) -> Result<Report, NoMemory>
    ensures both { IfOk result (λ both.
        IsBoth report.text.items records.now.text.items report.status records.now.status both.text.items both.status) }
    ensures values { (report.status ≡ 0) ⊎ (report.status ≡ 1) → (records.now.status ≡ 0) ⊎ (records.now.status ≡ 1)
        → IfOk result (λ both. (both.status ≡ 0) ⊎ (both.status ≡ 1)) }
{
    let status = if report.status == 0 {
        records.status
    } else {
        report.status
    };
    let mut text = report.text;
    text.extend_from_slice(records.text.as_slice())?;
    Ok(Report { text, status })
}

/// What is printed of the nights in the folder at the path `nights`, and of their records.
fn report_of<R: Files + Clock + AllocGlobal + Clone + Drop>(
    rt: &R,
    nights: &str,
) -> Result<Report, Failure>
    ensures report { IfOk result (λ report. IsReport nights.now report.text.items report.status) }
    ensures values { IfOk result (λ report. (report.status ≡ 0) ⊎ (report.status ≡ 1)) }
    ensures before { IfErr result IsBefore }
{
    let marks = nights_at(rt, nights)?;
    let order = in_order(rt.alloc(), marks.as_slice())?;
    let report = nights_report(rt, nights.as_bytes(), order.as_slice())?;
    let records = review_records(rt, nights.as_bytes(), order.as_slice())?;
    Ok(with_records(report, &records)?)
}
