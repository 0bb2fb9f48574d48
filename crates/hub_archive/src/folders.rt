//! The folders of nights that are archived, in the files of the system. No contract says what the system does.
use crate::refusal::{Cause, Refusal};
use hub_folder::path_text;
use hub_kinds::{NoMemory, Text, copy_text};
use night_folder::{list_at, marks_at as marks_by, marks_in};
use night_marks::NightMark;
use night_review::{ReviewFault, nights_at};
use std::alloc::Global;
use std::cmp::Ordering;
use std::fs::OpenFile;
use std::rt::Files;
use std::{fs, io};

fn sync<R: Files>(rt: &R, folder: &str) -> io::Result<()> {
    fs::open(rt, folder)?.sync_all()
}

/// Makes the folder of archives of the hub `hub`, if it isn't there, and syncs each folder that has a new name.
fn home_made<R: Files + AllocGlobal>(rt: &R, hub: &str) -> io::Result<()> {
    let nights = path_text(rt.alloc(), hub, b"nights")?;
    let archived = path_text(rt.alloc(), nights.as_str(), b".archived")?;
    let home = path_text(rt.alloc(), archived.as_str(), b"nights")?;
    fs::create_dir_all(rt, home.as_str())?;
    sync(rt, home.as_str())?;
    sync(rt, archived.as_str())?;
    sync(rt, nights.as_str())
}

/// Why a call of the system failed, for the folder at the path `hub`.
fn refusal_of(alloc: Global, hub: &str, cause: Cause, error: &io::Error) -> Refusal {
    if error.kind() == io::ErrorKind::OutOfMemory {
        return Refusal::memory();
    }
    match copy_text(alloc, hub.as_bytes()) {
        Ok(path) => Refusal::Named(cause, path),
        Err(_) => Refusal::memory(),
    }
}

/// Makes the folder of archives of the hub `hub`, if it isn't there.
pub(crate) fn make_home<R: Files + AllocGlobal>(rt: &R, hub: &str) -> Result<(), Refusal> {
    match home_made(rt, hub) {
        Ok(()) => Ok(()),
        Err(error) => Err(refusal_of(rt.alloc(), hub, Cause::Unwritten, &error)),
    }
}

/// Moves the folder `name` from the folder `from` to the folder `to`, which has none of this name.
fn move_folder<R: Files + AllocGlobal>(
    rt: &R,
    from: &str,
    to: &str,
    name: &[u8],
) -> io::Result<()> {
    let source = path_text(rt.alloc(), from, name)?;
    let target = path_text(rt.alloc(), to, name)?;
    if fs::exists(rt, target.as_str())? {
        return Err(io::Error::from(io::ErrorKind::AlreadyExists));
    }
    fs::rename(rt, source.as_str(), target.as_str())
}

/// Moves the nights `marks` whose names don't come after `last` from the folder of nights to that of the archive.
fn move_all<R: Files + AllocGlobal>(
    rt: &R,
    hub: &str,
    last: &[u8],
    marks: &[NightMark],
) -> io::Result<()> {
    let nights = path_text(rt.alloc(), hub, b"nights")?;
    let archive = path_text(rt.alloc(), hub, b"archive")?;
    fs::create_dir_all(rt, archive.as_str())?;
    sync(rt, hub)?;
    for i in 0..marks.len() {
        let name = marks[i].name.as_slice();
        if last.cmp(name) != Ordering::Less {
            move_folder(rt, nights.as_str(), archive.as_str(), name)?;
        }
    }
    sync(rt, archive.as_str())?;
    sync(rt, nights.as_str())?;
    sync(rt, hub)
}

/// Removes the folder at the path `folder`, if it is there.
fn remove_if_there<R: Files + AllocGlobal>(rt: &R, folder: &str) -> io::Result<()> {
    if fs::exists(rt, folder)? {
        rt.remove_dir_all(rt.alloc(), folder)?;
    }
    Ok(())
}

/// Removes each of `archives` but the one called `last`, by the path `archived` of the folder of archives. Each is renamed first, so that a
/// stop leaves no part of an archive among the whole ones; a later call removes what is left of it.
fn remove_older<R: Files + AllocGlobal>(
    rt: &R,
    archived: &str,
    last: &[u8],
    archives: &[NightMark],
) -> io::Result<()> {
    let home = path_text(rt.alloc(), archived, b"nights")?;
    let old = path_text(rt.alloc(), archived, b"old")?;
    remove_if_there(rt, old.as_str())?;
    for i in 0..archives.len() {
        let name = archives[i].name.as_slice();
        if name != last {
            let path = path_text(rt.alloc(), home.as_str(), name)?;
            fs::rename(rt, path.as_str(), old.as_str())?;
            sync(rt, home.as_str())?;
            remove_if_there(rt, old.as_str())?;
        }
    }
    sync(rt, archived)
}

fn of_memory<T>(answer: Result<T, NoMemory>) -> io::Result<T> {
    match answer {
        Ok(value) => Ok(value),
        Err(_) => Err(io::Error::from(io::ErrorKind::OutOfMemory)),
    }
}

fn of_review<T>(answer: Result<T, ReviewFault>) -> io::Result<T> {
    match answer {
        Ok(value) => Ok(value),
        Err(ReviewFault::Memory) => Err(io::Error::from(io::ErrorKind::OutOfMemory)),
        Err(_) => Err(io::Error::from(io::ErrorKind::InvalidInput)),
    }
}

/// The nights that are whole in the folder at the path `folder`, archived ones among them.
fn listed_at<R: Files + AllocGlobal + Clone + Drop>(
    rt: &R,
    folder: &str,
) -> io::Result<Vec<NightMark>> {
    let listing = of_memory(list_at(rt, folder))?;
    let Some(names) = listing.names() else {
        return Err(io::Error::from(io::ErrorKind::InvalidInput));
    };
    let found = of_memory(marks_by(rt, folder.as_bytes(), names))?;
    of_memory(marks_in(rt.alloc(), found))
}

/// The name of the night that represents the archived ones of the folder at the path `nights`, as a run finds it.
fn archived_name<R: Files + AllocGlobal + Clone + Drop>(
    rt: &R,
    nights: &str,
) -> io::Result<Option<Text>> {
    let marks = of_review(nights_at(rt, nights))?;
    match marks.first() {
        Some(mark) if mark.is_archived => Ok(Some(of_memory(copy_text(
            rt.alloc(),
            mark.name.as_slice(),
        ))?)),
        _ => Ok(None),
    }
}

/// Whether the name of one of `marks` doesn't come after `last`.
fn has_old(marks: &[NightMark], last: &[u8]) -> bool {
    marks
        .iter()
        .any(|mark| last.cmp(mark.name.as_slice()) != Ordering::Less)
}

/// Moves what is archived in the hub `hub`, and removes older archives. What isn't a whole archive stays. Gives the name of the last
/// archived night, if a folder was moved.
fn settled<R: Files + AllocGlobal + Clone + Drop>(rt: &R, hub: &str) -> io::Result<Option<Text>> {
    let nights = path_text(rt.alloc(), hub, b"nights")?;
    let archived = path_text(rt.alloc(), nights.as_str(), b".archived")?;
    let home = path_text(rt.alloc(), archived.as_str(), b"nights")?;
    let Some(last) = archived_name(rt, nights.as_str())? else {
        return Ok(None);
    };
    let marks = listed_at(rt, nights.as_str())?;
    let moved = has_old(marks.as_slice(), last.as_slice());
    if moved {
        move_all(rt, hub, last.as_slice(), marks.as_slice())?;
    }
    let archives = listed_at(rt, home.as_str())?;
    remove_older(rt, archived.as_str(), last.as_slice(), archives.as_slice())?;
    if moved { Ok(Some(last)) } else { Ok(None) }
}

/// Moves the folders of archived nights of the hub `hub` to HUB/archive, and removes older archives. Gives the name of the last archived
/// night, if a folder was moved.
pub(crate) fn settle<R: Files + AllocGlobal + Clone + Drop>(
    rt: &R,
    hub: &str,
) -> Result<Option<Text>, Refusal> {
    match settled(rt, hub) {
        Ok(last) => Ok(last),
        Err(error) => Err(refusal_of(rt.alloc(), hub, Cause::Unmoved, &error)),
    }
}
