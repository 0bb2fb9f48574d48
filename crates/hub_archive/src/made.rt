ghost use Rattle.std.specs.Prelude.{◌≡◌, ◌∷◌, ◌-◌, ◌≤◌, IfErr, IfOk, OnOk, drop, length, take, true};
ghost use Rattle.std.specs.List.{list_all};
ghost use Rattle.night_review.specs.GoingOn.{GoOn};
ghost use Rattle.hub_folder.specs.Older.{map_now};
ghost use Rattle.hub_archive.specs.Archive as spec;

use crate::archiving::Archiving;
use crate::refusal::{Cause, Refusal};
use archived_nights::{Archive, MakeFault, archive_files, archive_of};
use hub_folder::{Older, last_of, path_in};
use hub_kinds::{Items, Text, copy_text};
use hub_ledger::NightEntry;
use night_folder::read_paper;
use night_marks::{NightMark, unarchived};
use night_review::judged;
use night_shelf::KeptNight;
use std::alloc::Global;
use std::cmp::Ordering;
use std::rt::Files;

/// An archive that isn't kept yet.
#[derive(Drop)]
pub struct Made {
    /// Its folder and its files.
    pub night: KeptNight,
}

/// The name of the last of `order`.
fn last_name<'a>(order: &[&'a NightMark]) -> &'a [u8]
    ensures { result.now ≡ spec.last_name order.entry.now }
{
    match last_of(order) {
        None => b"",
        Some(mark) => mark.name.as_slice(),
    }
}

/// Sees to it that the nights which were read continue.
pub(crate) fn check_all(
    alloc: Global,
    hub: &str,
    older: &Older<'_>,
    limit: &[u8],
) -> Result<(), Refusal>
    ensures { OnOk result (GoOn limit.now (spec.last_name older.now.order) (map_now older.now.order)
        older.now.entries older.now.bad) }
{
    let report = judged(
        alloc,
        older.order.as_slice(),
        older.entries.as_slice(),
        older.bad.as_slice(),
        limit,
        last_name(older.order.as_slice()),
    )?;
    if report.status == 0 {
        return Ok(());
    }
    let path = copy_text(alloc, hub.as_bytes())?;
    Err(Refusal::NotSound(Items::from_vec(report.text), path))
}

/// Whether the name of `mark` comes after `name`, in the order of their bytes.
fn is_after(name: &[u8], mark: &NightMark) -> bool
    ensures { result ≡ spec.is_after name.now mark.entry }
{
    name.cmp(mark.name.as_slice()) == Ordering::Less
}

fn are_after(name: &[u8], marks: &[&NightMark]) -> bool
    ensures { result ≡ list_all (spec.is_after name.now) marks.now }
{
    marks.iter().all(|mark| is_after(name, mark))
}

fn are_not_after(name: &[u8], marks: &[&NightMark]) -> bool
    ensures { result ≡ list_all (spec.is_not_after name.now) marks.now }
{
    marks.iter().all(|mark| !is_after(name, mark))
}

/// How many of `all` nights are archived together so that `keep` are left, `left` of which aren't archived yet; none if there are no more.
fn count_by(left: usize, all: usize, keep: usize) -> Option<usize>
    ensures { result ≡ spec.count_by left all keep }
{
    if left <= keep || all <= keep {
        None
    } else {
        Some(all - keep)
    }
}

/// How many of the nights of `older` are archived together, with those that are archived already, so that `keep` are left; none if no more
/// are left than that.
pub(crate) fn count_of(
    alloc: Global,
    older: &Older<'_>,
    keep: u32,
) -> Result<Option<usize>, Refusal>
    ensures { IfOk result (λ count. count ≡ spec.count_of older.now keep) }
{
    let left = unarchived(alloc, older.order.as_slice())?;
    Ok(count_by(
        left.as_slice().len(),
        older.order.as_slice().len(),
        keep as usize,
    ))
}

/// Sees to it that the names of the first `count` nights of `order` don't come after `name`, and those of the others do.
fn check_split(
    alloc: Global,
    hub: &str,
    name: &[u8],
    order: &[&NightMark],
    count: usize,
) -> Result<(), Refusal>
    ensures { OnOk result (spec.IsSplit name.now count order.now) }
{
    if count <= order.len()
        && are_not_after(name, &order[..count])
        && are_after(name, &order[count..])
    {
        return Ok(());
    }
    Err(Refusal::Named(Cause::Order, copy_text(alloc, hub.as_bytes())?))
}

fn of_make(fault: MakeFault, path: Text) -> Refusal {
    match fault {
        MakeFault::Memory => Refusal::memory(),
        MakeFault::Unwritable => Refusal::Named(Cause::Unwritten, path),
    }
}

/// The archive of `nights`.
fn archive_made(alloc: Global, hub: &str, nights: &[NightEntry]) -> Result<Archive, Refusal>
    ensures { IfOk result (spec.IsArchiveOfNights nights.now) }
{
    let path = copy_text(alloc, hub.as_bytes())?;
    match archive_of(alloc, nights) {
        Ok(archive) => Ok(archive),
        Err(fault) => Err(of_make(fault, path)),
    }
}

/// The record of the night `name` of the folder at the path `nights`.
fn record_at<R: Files + AllocGlobal>(rt: &R, nights: &[u8], name: &[u8]) -> Result<Text, Refusal>
    ensures { IfOk result (spec.IsRecordAt nights.now name.now) }
{
    let folder = path_in(rt.alloc(), nights, name)?;
    let file = read_paper(rt, folder.as_slice(), b"night.toml")?;
    match file.bytes() {
        Some(bytes) => Ok(copy_text(rt.alloc(), bytes)?),
        None => Err(Refusal::Named(Cause::Record, folder)),
    }
}

/// The archive with its files, whose last night has a record of the bytes `of_last`.
fn made_of(alloc: Global, hub: &str, archive: &Archive, of_last: &[u8]) -> Result<Made, Refusal>
    ensures { IfOk result (spec.IsMadeOf archive.now of_last.now) }
{
    let path = copy_text(alloc, hub.as_bytes())?;
    match archive_files(alloc, archive, of_last) {
        Ok(files) => Ok(Made {
            night: KeptNight {
                name: copy_text(alloc, archive.name.as_slice())?,
                files: Items::from_vec(files),
            },
        }),
        Err(fault) => Err(of_make(fault, path)),
    }
}

/// The archive of the first `count` nights of `older`, which are in the folder at the path `nights`.
pub(crate) fn made_at<R: Files + AllocGlobal>(
    rt: &R,
    archiving: &Archiving<'_>,
    nights: &[u8],
    older: &Older<'_>,
    count: usize,
) -> Result<Made, Refusal>
    ensures { IfOk result (spec.IsMadeFrom nights.now older.now count) }
{
    let alloc = rt.alloc();
    let entries = older.entries.as_slice();
    if entries.len() < count {
        return Err(Refusal::Named(Cause::Order, copy_text(alloc, archiving.hub.as_bytes())?));
    }
    let archive = archive_made(alloc, archiving.hub, &entries[..count])?;
    let name = archive.name.as_slice();
    check_split(alloc, archiving.hub, name, older.order.as_slice(), count)?;
    let of_last = record_at(rt, nights, name)?;
    made_of(alloc, archiving.hub, &archive, of_last.as_slice())
}
