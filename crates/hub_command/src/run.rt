ghost use Rattle.std.specs.Prelude.{◌≡◌, IfErr, IfOk};
ghost use Rattle.night_shelf.specs.Shelf.{Changes, IsKept};
ghost use Rattle.night_command.specs.CommandLine.{CanShare};
ghost use Rattle.hub_folder.specs.Failure.{IsBefore};
ghost use Rattle.hub_command.specs.Run as run;

use crate::changed::changes_at;
use crate::progress::show;
use crate::reading::day_files_at;
use crate::ready::{Ready, ready_text};
use crate::there::{There, there_at};
use day_files::listing_of;
use hub_folder::{Failure, HubPapers, Older, Told, marks_at, older_of, papers_at, path_in};
use hub_kinds::{NoMemory, Text, copy_text};
use hub_night::{Day, Judged, Made, Setting, day_of, made_of};
use night_entries::sum_of;
use night_shelf::{NightFile, Shelf, ShelfFault, keep};
use std::alloc::Global;
use std::io::Write;
use std::rt::Files;
use std::sync::Wait;
use std::thread::Threads;
use std::time::Clock;

/// The night that is asked for: there already, or made.
#[derive(Drop)]
pub(crate) enum Found {
    There(There),
    /// Each file of the day is set aside. These are the lines on them.
    Aside(Text),
    Made(Made),
}

/// Makes the night of `setting`, with what is said of guides that have changed since the last one.
fn made_at<R>(
    rt: &R,
    setting: &Setting<'_>,
    older: Older<'_>,
    papers: &HubPapers,
    day: Day,
) -> Result<Made, Failure>
where
    R: Files + AllocGlobal + Threads + Wait + Clock + Sync + Clone + Drop,
    requires sharing { CanShare setting.now.sharing }
    ensures made { IfOk result (run.IsMadeWith setting.now older.entry papers.now day) }
    ensures before { IfErr result IsBefore }
{
    let changes = changes_at(
        rt,
        setting.hub.as_bytes(),
        older.chain.before.as_slice(),
        papers.guides.as_slice(),
    )?;
    made_of(
        rt,
        rt.alloc(),
        setting,
        older,
        papers,
        day,
        changes.as_slice(),
    )
}

/// Finds the night that `setting` names, or makes it.
fn found_at<R, P>(rt: &R, setting: &Setting<'_>, shown: &mut P) -> Result<Found, Failure>
where
    R: Files + AllocGlobal + Threads + Wait + Clock + Sync + Clone + Drop,
    P: Write,
    requires sharing { CanShare setting.now.sharing }
    ensures found { IfOk result (run.IsFoundAt setting.now) }
    ensures before { IfErr result IsBefore }
{
    let alloc = rt.alloc();
    let nights = path_in(alloc, setting.hub.as_bytes(), b"nights")?;
    let marks = marks_at(rt, setting.hub, nights.as_slice())?;
    let older = older_of(rt, nights.as_slice(), marks.as_slice())?;
    show(shown, "reading the files of the day");
    let files = day_files_at(rt, setting)?;
    let listing = listing_of(alloc, files.as_slice())?;
    if let Some(there) = there_at(rt, nights.as_slice(), &older, setting, listing.as_slice())? {
        return Ok(Found::There(there));
    }
    let papers = papers_at(rt, setting.hub.as_bytes())?;
    show(shown, "working on each file alone");
    match day_of(
        rt,
        alloc,
        setting,
        &older,
        &papers,
        files.as_slice(),
        listing,
    )? {
        Judged::Aside(lines) => Ok(Found::Aside(lines)),
        Judged::Day(day) => {
            show(shown, "making the night");
            Ok(Found::Made(made_at(rt, setting, older, &papers, day)?))
        }
    }
}

/// The sum of the record of a night, which is the last of its files.
fn record_sum(alloc: Global, files: &[NightFile]) -> Result<Text, NoMemory>
    ensures { IfOk result (λ sum. sum ≡ run.record_sum files.now) }
{
    match files.last() {
        None => copy_text(alloc, b""),
        Some(record) => sum_of(alloc, record.bytes.as_slice()),
    }
}

fn ready_of<'a>(setting: &'a Setting<'a>, made: &'a Made, record_sum: &'a [u8]) -> Ready<'a>
    ensures { run.IsReadyOf setting.entry.now made.entry.now record_sum.entry.now result }
{
    Ready {
        hub: setting.hub.as_bytes(),
        number: made.number,
        name: setting.name,
        folder: made.night.name.as_slice(),
        lines: made.lines.as_slice(),
        total: made.total.as_slice(),
        record_sum,
    }
}

/// What is said of a night that is made, once it is kept.
fn told_of(alloc: Global, setting: &Setting<'_>, made: &Made) -> Result<Told, NoMemory>
    ensures { IfOk result (run.IsToldOf setting.now made.now) }
{
    let sum = record_sum(alloc, made.night.files.as_slice())?;
    let ready = ready_of(setting, made, sum.as_slice());
    let text = ready_text(alloc, &ready)?;
    Ok(Told {
        text,
        status: made.status,
    })
}

fn ready_again<'a>(setting: &'a Setting<'a>, there: &'a There) -> Ready<'a>
    ensures { run.IsReadyAgain setting.entry.now there.entry.now result }
{
    Ready {
        hub: setting.hub.as_bytes(),
        number: there.number,
        name: setting.name,
        folder: there.folder.as_slice(),
        lines: there.lines.as_slice(),
        total: there.total.as_slice(),
        record_sum: there.record_sum.as_slice(),
    }
}

/// What is said of a night that is there already.
fn told_again(alloc: Global, setting: &Setting<'_>, there: &There) -> Result<Told, NoMemory>
    ensures { IfOk result (run.IsToldAgain setting.now there.now) }
{
    let ready = ready_again(setting, there);
    let text = ready_text(alloc, &ready)?;
    Ok(Told {
        text,
        status: there.status,
    })
}

fn of_shelf(fault: ShelfFault) -> Failure
    ensures { IsBefore result }
{
    match fault {
        ShelfFault::Memory => Failure::Memory,
        ShelfFault::Failed => Failure::Keep,
    }
}

/// Keeps a night that is made, and gives what is said of it.
fn keep_made<S: Shelf>(
    alloc: Global,
    shelf: &mut S,
    setting: &Setting<'_>,
    made: &Made,
) -> Result<Told, Failure>
    ensures kept { IfOk result (λ told. run.IsToldOf setting.now made.now told
        × Changes (IsKept made.now.night) (S.place shelf.old) (S.place shelf.new)) }
    ensures stopped { run.MayKeep made.now.night (S.place shelf.old) (S.place shelf.new) }
    ensures before { IfErr result IsBefore }
{
    let told = told_of(alloc, setting, made)?;
    match keep(
        shelf,
        made.night.name.as_slice(),
        made.night.files.as_slice(),
    ) {
        Ok(()) => Ok(told),
        Err(fault) => Err(of_shelf(fault)),
    }
}

/// Runs the night of `setting` on the shelf of the hub. If the night is the last one already, nothing is run. Its input is what goes in of
/// the files of the day, without those of which an older night delivered a set and that aren't asked for again. If each is set aside, no
/// night is made. What is given is printed, and the status that the program ends with. A night is only kept if all nights with it
/// continue; a stop at any moment, and a failure, leave the nights as they were, or with this one. What is shown on `shown` says at which
/// step the run is.
pub fn run_on<R, S, P>(
    rt: &R,
    shelf: &mut S,
    setting: &Setting<'_>,
    shown: &mut P,
) -> Result<Told, Failure>
where
    R: Files + AllocGlobal + Threads + Wait + Clock + Sync + Clone + Drop,
    S: Shelf,
    P: Write,
    requires sharing { CanShare setting.now.sharing }
    ensures done { IfOk result (run.IsDone setting.now (S.place shelf.old) (S.place shelf.new)) }
    ensures stopped { run.MayLeaveOne setting.now (S.place shelf.old) (S.place shelf.new) }
    ensures before { IfErr result (run.IsFailureOf setting.now) }
{
    let found = found_at(rt, setting, shown)?;
    match found {
        Found::There(there) => Ok(told_again(rt.alloc(), setting, &there)?),
        Found::Aside(lines) => Err(Failure::AllAside(lines)),
        Found::Made(made) => {
            show(shown, "writing the night");
            keep_made(rt.alloc(), shelf, setting, &made)
        }
    }
}
