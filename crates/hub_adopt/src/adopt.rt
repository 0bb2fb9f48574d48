ghost use Rattle.std.specs.Prelude.{◌≡◌, ◌≤◌, ◌+◌, ◌⊎◌, IfOk, OnOk, length, option_map, slice_get, true};
ghost use Rattle.night_command.specs.CommandLine.{CanShare};
ghost use Rattle.night_shelf.specs.Shelf.{Changes, IsKept, MayLeave};
ghost use Rattle.hub_folder.specs.Names as names;
ghost use Rattle.hub_folder.specs.Older.{map_now};
ghost use Rattle.hub_adopt.specs.Adopt as adopt;
ghost use Rattle.hub_adopt.specs.Again.{hub_nights};

use crate::adoption::Adoption;
use crate::again::{made_again, other_file};
use crate::given::given_at;
use crate::lines::lines_of;
use crate::next::Next;
use crate::old::{check_old, old_marks};
use crate::refusal::{Cause, Refusal};
use hub_folder::{Failure, Told, folder_name, marks_at, path_in};
use hub_kinds::{NoMemory, copy_text};
use hub_night::Made;
use night_marks::{NightMark, in_order};
use night_shelf::{Shelf, ShelfFault, keep};
use std::alloc::Global;
use std::rt::Files;
use std::sync::Wait;
use std::thread::Threads;
use std::time::Clock;

/// The most nights that a hub has.
const MOST_NIGHTS: usize = 999_999;

/// Whether the night `kept` has the name of the old night `mark`, under `number`, and its moment.
fn is_named(
    alloc: Global,
    number: u32,
    kept: &NightMark,
    mark: &NightMark,
) -> Result<bool, NoMemory>
    requires { number ≤ 999999 }
    ensures name { IfOk result (λ named. named ≡ true → kept.now.name ≡ names.folder_name number mark.now.name) }
    ensures moment { IfOk result (λ named. named ≡ true → kept.now.moment ≡ mark.now.moment) }
{
    let folder = folder_name(alloc, number, mark.name.as_slice())?;
    Ok(
        kept.name.as_slice() == folder.as_slice()
            && kept.moment.as_slice() == mark.moment.as_slice(),
    )
}

/// Sees to it that the night `kept` of the hub, whose nights are in the folder at the path `nights`, is the old night `mark`.
fn check_there<R: Files + AllocGlobal + Clone + Drop>(
    rt: &R,
    adoption: &Adoption<'_>,
    nights: &[u8],
    number: u32,
    kept: &NightMark,
    mark: &NightMark,
) -> Result<(), Refusal>
    requires number { number ≤ 999999 }
    requires nights { nights.now ≡ hub_nights adoption.now }
    ensures { OnOk result (adopt.IsOldNight adoption.now number kept.now mark.now) }
{
    let folder = path_in(rt.alloc(), nights, kept.name.as_slice())?;
    if !is_named(rt.alloc(), number, kept, mark)? {
        return Err(Refusal::Named(Cause::Other, folder));
    }
    let given = given_at(rt, folder.as_slice())?;
    match other_file(rt, adoption, mark, given.as_slice())? {
        None => Ok(()),
        Some(_) => Err(Refusal::Named(Cause::Other, folder)),
    }
}

/// The night of `order` after `count` others.
fn night_at<'a>(order: &[&'a NightMark], count: usize) -> Option<&'a NightMark>
    ensures { option_map (λ mark. mark.now) result ≡ slice_get (map_now order.entry.now) count }
{
    order.get(count).copied()
}

/// What is next for the old night `mark`, before which there are `count`.
fn next_of<R>(
    rt: &R,
    adoption: &Adoption<'_>,
    count: usize,
    mark: &NightMark,
) -> Result<Next, Refusal>
where
    R: Files + AllocGlobal + Threads + Wait + Clock + Sync + Clone + Drop,
    requires sharing { CanShare adoption.now.sharing }
    ensures { IfOk result (adopt.IsNext adoption.now count mark.now) }
{
    if MOST_NIGHTS <= count {
        return Err(Refusal::Hub(Failure::TooMany));
    }
    let nights = path_in(rt.alloc(), adoption.hub.as_bytes(), b"nights")?;
    let marks = marks_at(rt, adoption.hub, nights.as_slice())?;
    let order = in_order(rt.alloc(), marks.as_slice())?;
    let Some(kept) = night_at(order.as_slice(), count) else {
        let made = made_again(rt, adoption, count, mark, marks.as_slice())?;
        return Ok(Next::Made(made));
    };
    check_there(
        rt,
        adoption,
        nights.as_slice(),
        count as u32 + 1,
        kept,
        mark,
    )?;
    Ok(Next::There)
}

fn of_shelf(fault: ShelfFault) -> Refusal {
    match fault {
        ShelfFault::Memory => Refusal::Hub(Failure::Memory),
        ShelfFault::Failed => Refusal::Hub(Failure::Keep),
    }
}

/// Keeps a night that was made again.
fn keep_made<S: Shelf>(shelf: &mut S, made: &Made) -> Result<(), Refusal>
    ensures kept { OnOk result (Changes (IsKept made.now.night) (S.place shelf.old) (S.place shelf.new)) }
    ensures stopped { Changes (MayLeave made.now.night) (S.place shelf.old) (S.place shelf.new) }
{
    match keep(
        shelf,
        made.night.name.as_slice(),
        made.night.files.as_slice(),
    ) {
        Ok(()) => Ok(()),
        Err(fault) => Err(of_shelf(fault)),
    }
}

/// Adopts the old night `mark`, before which there are `count`.
fn adopt_night<R, S>(
    rt: &R,
    shelf: &mut S,
    adoption: &Adoption<'_>,
    count: usize,
    mark: &NightMark,
) -> Result<(), Refusal>
where
    R: Files + AllocGlobal + Threads + Wait + Clock + Sync + Clone + Drop,
    S: Shelf,
    requires sharing { CanShare adoption.now.sharing }
    ensures adopted { OnOk result (adopt.IsAdopted adoption.now count mark.now (S.place shelf.old) (S.place shelf.new)) }
    ensures stopped { adopt.MayLeaveNext adoption.now count mark.now (S.place shelf.old) (S.place shelf.new) }
{
    match next_of(rt, adoption, count, mark)? {
        Next::There => Ok(()),
        Next::Made(made) => keep_made(shelf, &made),
    }
}

/// Adopts the old nights `order`, one after another.
fn adopt_all<R, S>(
    rt: &R,
    shelf: &mut S,
    adoption: &Adoption<'_>,
    order: &[&NightMark],
) -> Result<(), Refusal>
where
    R: Files + AllocGlobal + Threads + Wait + Clock + Sync + Clone + Drop,
    S: Shelf,
    requires sharing { CanShare adoption.now.sharing }
    ensures adopted { OnOk result (adopt.AreAdopted adoption.now (map_now order.now) (length (map_now order.now))
        (S.place shelf.old) (S.place shelf.new)) }
    ensures stopped { adopt.MayLeaveFirst adoption.now (map_now order.now) (S.place shelf.old) (S.place shelf.new) }
{
    for i in 0..order.len() {
        adopt_night(rt, shelf, adoption, i, order[i])?;
    }
    Ok(())
}

/// Sees to it that the hub has no more than `count` nights.
fn check_no_more<R: Files + AllocGlobal + Clone + Drop>(
    rt: &R,
    adoption: &Adoption<'_>,
    count: usize,
) -> Result<(), Refusal>
    ensures { OnOk result (adopt.HasNoMore adoption.now count) }
{
    let nights = path_in(rt.alloc(), adoption.hub.as_bytes(), b"nights")?;
    let marks = marks_at(rt, adoption.hub, nights.as_slice())?;
    let order = in_order(rt.alloc(), marks.as_slice())?;
    if count < order.len() {
        let name = order[count].name.as_slice();
        return Err(Refusal::Named(Cause::Other, path_in(rt.alloc(), nights.as_slice(), name)?));
    }
    Ok(())
}

/// Sees to it that the old nights `order` can be adopted: there is one or more, they continue, and the hub has no others.
fn check_all<R: Files + AllocGlobal + Clone + Drop>(
    rt: &R,
    adoption: &Adoption<'_>,
    order: &[&NightMark],
) -> Result<(), Refusal>
    ensures { OnOk result (adopt.CanBeAdopted adoption.now (map_now order.now)) }
{
    if order.is_empty() {
        let path = copy_text(rt.alloc(), adoption.nights.as_bytes())?;
        return Err(Refusal::Named(Cause::NoNight, path));
    }
    check_old(rt, adoption.nights, order, adoption.limit)?;
    check_no_more(rt, adoption, order.len())
}

/// Makes each old night of a folder a night of the hub, in their order: it is made again by its own files, compared with what the old night
/// gave, and kept on the shelf of the hub. A night that is there already isn't made again. What is given is printed. Nothing is kept unless
/// all old nights continue. A stop at any moment, and a failure, leave the nights as they were, or with some first old nights; the same
/// call continues from there.
pub fn adopt_on<R, S>(rt: &R, shelf: &mut S, adoption: &Adoption<'_>) -> Result<Told, Refusal>
where
    R: Files + AllocGlobal + Threads + Wait + Clock + Sync + Clone + Drop,
    S: Shelf,
    requires sharing { CanShare adoption.now.sharing }
    ensures done { IfOk result (adopt.IsDone adoption.now (S.place shelf.old) (S.place shelf.new)) }
    ensures stopped { adopt.MayLeave adoption.now (S.place shelf.old) (S.place shelf.new) }
{
    let marks = old_marks(rt, adoption.nights)?;
    let order = in_order(rt.alloc(), marks.as_slice())?;
    check_all(rt, adoption, order.as_slice())?;
    let text = lines_of(rt.alloc(), order.as_slice())?;
    adopt_all(rt, shelf, adoption, order.as_slice())?;
    Ok(Told { text, status: 0 })
}
