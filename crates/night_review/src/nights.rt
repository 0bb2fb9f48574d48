ghost use Rattle.std.specs.Prelude.{◌≡◌, IfErr, IfOk, filter};
ghost use Rattle.night_review.specs.Faults.{IsOfFolder};
ghost use Rattle.night_review.specs.Nights as spec;

use crate::fault::ReviewFault;
use hub_kinds::NoMemory;
use night_folder::{archive_path, is_there, list_at, marks_at, marks_in};
use night_marks::NightMark;
use std::alloc::Global;
use std::cmp::Ordering;
use std::rt::Files;
use std::str;

/// The nights that were listed in the folder at the path `nights`. Errors: the folder can't be listed, or has a name that isn't UTF-8; or
/// out of memory.
fn listed_at<R: Files + AllocGlobal + Clone + Drop>(
    rt: &R,
    nights: &str,
) -> Result<Vec<NightMark>, ReviewFault>
    ensures nights { IfOk result (λ marks. spec.AreListed nights.now marks.items) }
    ensures refused { IfErr result IsOfFolder }
{
    let folder = list_at(rt, nights)?;
    let Some(names) = folder.names() else {
        return Err(ReviewFault::Unlisted);
    };
    let found = marks_at(rt, nights.as_bytes(), names)?;
    Ok(marks_in(rt.alloc(), found)?)
}

/// The nights of the folder at `path`; none if nothing is there.
fn listed_if_there<R: Files + AllocGlobal + Clone + Drop>(
    rt: &R,
    path: &[u8],
) -> Result<Vec<NightMark>, ReviewFault>
    ensures nights { IfOk result (λ marks. spec.AreListedIfThere path.now marks.items) }
    ensures refused { IfErr result IsOfFolder }
{
    if !is_there(rt, path) {
        return Ok(Vec::new(rt.alloc()));
    }
    match str::from_utf8(path) {
        Ok(path) => listed_at(rt, path),
        Err(_) => Err(ReviewFault::Unlisted),
    }
}

/// The archived nights of the folder at the path `nights`; none if nothing is where they are.
fn archived_at<R: Files + AllocGlobal + Clone + Drop>(
    rt: &R,
    nights: &str,
) -> Result<Vec<NightMark>, ReviewFault>
    ensures nights { IfOk result (λ marks. spec.AreArchived nights.now marks.items) }
    ensures refused { IfErr result IsOfFolder }
{
    let home = archive_path(rt.alloc(), nights.as_bytes())?;
    listed_if_there(rt, home.as_slice())
}

/// Whether the name of `mark` comes after `name`, in the order of their bytes.
fn is_after(name: &[u8], mark: &NightMark) -> bool
    ensures { result ≡ spec.is_after name.now mark.now }
{
    name.cmp(mark.name.as_slice()) == Ordering::Less
}

/// Those of `listed` whose names come after `name`.
fn later_than(
    alloc: Global,
    name: &[u8],
    listed: Vec<NightMark>,
) -> Result<Vec<NightMark>, NoMemory>
    ensures { IfOk result (λ later. later.items ≡ filter (spec.is_after name.now) listed.items) }
{
    let mut later = Vec::new(alloc);
    for mark in listed {
        if is_after(name, &mark) {
            later.push(mark)?;
        }
    }
    Ok(later)
}

/// The night `mark`, which represents archived nights.
fn as_archived(mark: NightMark) -> NightMark
    ensures { result ≡ spec.as_archived mark }
{
    NightMark {
        name: mark.name,
        moment: mark.moment,
        before: mark.before,
        is_archived: true,
    }
}

/// `first`, which represents archived nights, and those of `listed` that come after it.
fn after_archive(
    alloc: Global,
    first: NightMark,
    listed: Vec<NightMark>,
) -> Result<Vec<NightMark>, NoMemory>
    ensures { IfOk result (λ all. all.items ≡ spec.after_archive first listed.items) }
{
    let mut later = later_than(alloc, first.name.as_slice(), listed)?;
    let mut all = Vec::new(alloc);
    all.push(as_archived(first))?;
    all.append(&mut later)?;
    Ok(all)
}

/// The last of `marks`.
fn last_of(marks: Vec<NightMark>) -> Option<NightMark>
    ensures { result ≡ spec.last_of marks.items }
{
    let mut marks = marks;
    marks.pop()
}

/// The last of `archived`, and those of `listed` that come after it.
fn with_archive(
    alloc: Global,
    archived: Vec<NightMark>,
    listed: Vec<NightMark>,
) -> Result<Vec<NightMark>, NoMemory>
    ensures { IfOk result (λ all. all.items ≡ spec.with_archive archived.items listed.items) }
{
    match last_of(archived) {
        None => Ok(listed),
        Some(last) => after_archive(alloc, last, listed),
    }
}

/// The nights of the folder at the path `nights`. If nights are archived, the first of them represents all of these. Errors: the folder
/// can't be listed, or has a name that isn't UTF-8; so of the folder of archived nights in it, if something is there; or out of memory.
pub fn nights_at<R: Files + AllocGlobal + Clone + Drop>(
    rt: &R,
    nights: &str,
) -> Result<Vec<NightMark>, ReviewFault>
    ensures nights { IfOk result (λ marks. spec.AreNights nights.now marks.items) }
    ensures refused { IfErr result IsOfFolder }
{
    let listed = listed_at(rt, nights)?;
    let archived = archived_at(rt, nights)?;
    Ok(with_archive(rt.alloc(), archived, listed)?)
}
