ghost use Rattle.std.specs.Prelude.{◌≡◌, IfOk, OnOk, true};
ghost use Rattle.std.specs.List.{list_all};
ghost use Rattle.night_folder.specs.Marks.{is_hidden};
ghost use Rattle.night_review.specs.GoingOn.{GoOn};
ghost use Rattle.hub_folder.specs.Older.{map_now};
ghost use Rattle.hub_adopt.specs.Old as old;

use crate::refusal::{Cause, Refusal};
use hub_folder::{Failure, path_in};
use hub_kinds::{Items, Text, copy_text};
use hub_ledger::NightEntry;
use night_folder::{entries_in, first_line, list_at, read_nights, read_paper};
use night_marks::{BadFile, NightMark};
use night_review::{ReviewFault, judged, nights_at};
use std::alloc::Global;
use std::rt::Files;

/// Why the folder at the path `nights` gives no old nights.
fn of_folder(alloc: Global, nights: &str, fault: ReviewFault) -> Refusal {
    if fault == ReviewFault::Memory {
        return Refusal::Hub(Failure::Memory);
    }
    match copy_text(alloc, nights.as_bytes()) {
        Ok(path) => Refusal::Named(Cause::Unlisted, path),
        Err(_) => Refusal::Hub(Failure::Memory),
    }
}

fn is_hidden(name: &[u8]) -> bool
    ensures { result ≡ is_hidden name.now }
{
    match name {
        [] => false,
        [first, ..] => *first == b'.',
    }
}

fn is_named(mark: &NightMark, name: &[u8]) -> bool
    ensures { result ≡ old.is_named mark.now name.now }
{
    mark.name.as_slice() == name
}

/// Whether one of the nights `marks` has the name `name`.
fn has_night(marks: &[NightMark], name: &[u8]) -> bool
    ensures { result ≡ old.has_night marks.now name.now }
{
    marks.iter().any(|mark| is_named(mark, name))
}

/// Whether `name` is that of one of the nights `marks`, or begins with a dot.
fn is_known(marks: &[NightMark], name: &[u8]) -> bool
    ensures { result ≡ old.is_known marks.now name.now }
{
    is_hidden(name) || has_night(marks, name)
}

fn are_known(marks: &[NightMark], names: &[Text]) -> bool
    ensures { result ≡ list_all (old.is_known marks.now) names.now }
{
    names.iter().all(|name| is_known(marks, name.as_slice()))
}

/// The first of `names` that isn't known.
fn first_unknown<'a>(marks: &[NightMark], names: &'a [Text]) -> &'a [u8] {
    for i in 0..names.len() {
        if !is_known(marks, names[i].as_slice()) {
            return names[i].as_slice();
        }
    }
    b""
}

/// The nights of the folder at the path `nights`, each of which is done.
pub(crate) fn old_marks<R: Files + AllocGlobal + Clone + Drop>(
    rt: &R,
    nights: &str,
) -> Result<Vec<NightMark>, Refusal>
    ensures { IfOk result (λ marks. old.AreAllDone nights.now marks.items) }
{
    let alloc = rt.alloc();
    let marks = match nights_at(rt, nights) {
        Ok(marks) => marks,
        Err(fault) => return Err(of_folder(alloc, nights, fault)),
    };
    let listing = list_at(rt, nights)?;
    let Some(names) = listing.names() else {
        return Err(of_folder(alloc, nights, ReviewFault::Unlisted));
    };
    if !are_known(marks.as_slice(), names) {
        let name = first_unknown(marks.as_slice(), names);
        return Err(Refusal::Named(Cause::NotDone, path_in(alloc, nights.as_bytes(), name)?));
    }
    Ok(marks)
}

/// Sees to it that the nights `order` of the folder at the path `nights` continue, of which `entries` and `bad` were read. No moment may be
/// after `limit`, and the last night must be the one called `named`.
fn check_read(
    alloc: Global,
    nights: &str,
    order: &[&NightMark],
    entries: &[NightEntry],
    bad: &[BadFile],
    limit: &[u8],
    named: &[u8],
) -> Result<(), Refusal>
    ensures { OnOk result (GoOn limit.now named.now (map_now order.now) entries.now bad.now) }
{
    let report = judged(alloc, order, entries, bad, limit, named)?;
    if report.status == 0 {
        Ok(())
    } else {
        let path = copy_text(alloc, nights.as_bytes())?;
        Err(Refusal::NotSound(Items::from_vec(report.text), path))
    }
}

/// Sees to it that the nights `order` of the folder at the path `nights` continue. No moment may be after `limit`.
pub(crate) fn check_old<R: Files + AllocGlobal + Clone + Drop>(
    rt: &R,
    nights: &str,
    order: &[&NightMark],
    limit: &[u8],
) -> Result<(), Refusal>
    ensures { OnOk result (old.Continue limit.now nights.now (map_now order.now)) }
{
    let reads = read_nights(rt, nights.as_bytes(), order)?;
    let (entries, bad) = entries_in(rt.alloc(), reads)?;
    let last = read_paper(rt, nights.as_bytes(), b".last")?;
    check_read(
        rt.alloc(),
        nights,
        order,
        entries.as_slice(),
        bad.as_slice(),
        limit,
        first_line(last.bytes_or_none()),
    )
}
