ghost use Rattle.std.specs.Prelude.{◌≡◌, IfErr, IfOk, OnOk};
ghost use Rattle.night_shelf.specs.Shelf.{Changes, IsKept, MayLeave};
ghost use Rattle.hub_archive.specs.Archive as spec;

use crate::archiving::Archiving;
use crate::folders::make_home;
use crate::made::{Made, check_all, count_of, made_at};
use crate::refusal::{Cause, Refusal};
use hub_folder::{marks_at, older_of, path_in};
use hub_kinds::{Text, copy_text};
use night_shelf::{Shelf, ShelfFault, keep};
use std::alloc::Global;
use std::rt::Files;

/// The archive that is to be made; none if the hub has no more nights than are kept.
fn found_at<R: Files + AllocGlobal + Clone + Drop>(
    rt: &R,
    archiving: &Archiving<'_>,
) -> Result<Option<Made>, Refusal>
    ensures { IfOk result (spec.IsFoundAt archiving.now) }
{
    let alloc = rt.alloc();
    let nights = path_in(alloc, archiving.hub.as_bytes(), b"nights")?;
    let marks = marks_at(rt, archiving.hub, nights.as_slice())?;
    let older = older_of(rt, nights.as_slice(), marks.as_slice())?;
    check_all(alloc, archiving.hub, &older, archiving.limit)?;
    let Some(count) = count_of(alloc, &older, archiving.keep)? else {
        return Ok(None);
    };
    let made = made_at(rt, archiving, nights.as_slice(), &older, count)?;
    Ok(Some(made))
}

fn of_shelf(fault: ShelfFault, path: Text) -> Refusal {
    match fault {
        ShelfFault::Memory => Refusal::memory(),
        ShelfFault::Failed => Refusal::Named(Cause::Unwritten, path),
    }
}

/// Keeps an archive that is made.
fn keep_made<S: Shelf>(alloc: Global, shelf: &mut S, hub: &str, made: &Made) -> Result<(), Refusal>
    ensures kept { OnOk result (Changes (IsKept made.now.night) (S.place shelf.old) (S.place shelf.new)) }
    ensures stopped { spec.MayKeep made.now.night (S.place shelf.old) (S.place shelf.new) }
{
    let path = copy_text(alloc, hub.as_bytes())?;
    match keep(
        shelf,
        made.night.name.as_slice(),
        made.night.files.as_slice(),
    ) {
        Ok(()) => Ok(()),
        Err(fault) => Err(of_shelf(fault, path)),
    }
}

/// Archives all nights of a hub but the last ones, as one entry on the shelf of its archives, and says whether it did: a hub that has no
/// more nights stays as it is. Nothing is archived unless all nights continue. A stop at any moment, and a failure, leave the archives as
/// they were, or with this one.
pub fn archive_on<R, S>(rt: &R, shelf: &mut S, archiving: &Archiving<'_>) -> Result<bool, Refusal>
where
    R: Files + AllocGlobal + Clone + Drop,
    S: Shelf,
    ensures done { IfOk result (spec.IsDone archiving.now (S.place shelf.old) (S.place shelf.new)) }
    ensures stopped { spec.MayLeaveOne archiving.now (S.place shelf.old) (S.place shelf.new) }
{
    let found = found_at(rt, archiving)?;
    match found {
        None => Ok(false),
        Some(made) => {
            make_home(rt, archiving.hub)?;
            keep_made(rt.alloc(), shelf, archiving.hub, &made)?;
            Ok(true)
        }
    }
}
