ghost use Rattle.std.specs.Prelude.{IfErr};
ghost use Rattle.hub_folder.specs.Failure.{IsBefore};

use crate::failure::Failure;
use hub_kinds::{Text, copy_text};
use std::alloc::Global;
use std::fs::{OpenFile, OpenOptions};
use std::io::Write;
use std::rt::Files;
use std::{fs, io};

/// The path of `name` in `folder`.
fn path_of(alloc: Global, folder: &str, name: &str) -> io::Result<String> {
    let mut path = String::new(alloc);
    path.push_str(folder)?;
    path.push_str("/")?;
    path.push_str(name)?;
    Ok(path)
}

/// Writes `name` and the end of the line into a file at `path`, and syncs it.
fn write_name<R: Files>(rt: &R, path: &str, name: &[u8]) -> io::Result<()> {
    let mut how = OpenOptions::new();
    how.write(true);
    how.create(true);
    how.truncate(true);
    let mut file = how.open(rt, path)?;
    file.write_all(name)?;
    file.write_all(b"\n")?;
    file.sync_all()
}

/// Writes into the file `last` of the hub at the path `hub` that `name` is its last night. The file gets its name by one rename once its
/// bytes are on the disk, so a stop leaves the old one or this one. Errors: the system's, of the call that failed; or out of memory.
pub(crate) fn note_last<R: Files + AllocGlobal>(rt: &R, hub: &str, name: &[u8]) -> io::Result<()> {
    let made = path_of(rt.alloc(), hub, "last.new")?;
    let last = path_of(rt.alloc(), hub, "last")?;
    write_name(rt, made.as_str(), name)?;
    fs::rename(rt, made.as_str(), last.as_str())?;
    fs::open(rt, hub)?.sync_all()
}

/// Removes the file `last` of the hub at the path `hub`, which has no night any more. Errors: the system's, of the call that failed; or
/// out of memory.
fn forget_last<R: Files + AllocGlobal>(rt: &R, hub: &str) -> io::Result<()> {
    let last = path_of(rt.alloc(), hub, "last")?;
    if fs::exists(rt, last.as_str())? {
        fs::remove_file(rt, last.as_str())?;
    }
    fs::open(rt, hub)?.sync_all()
}

fn note<R: Files + AllocGlobal>(rt: &R, hub: &str, name: Option<&Text>) -> io::Result<()> {
    match name {
        Some(name) => note_last(rt, hub, name.as_slice()),
        None => forget_last(rt, hub),
    }
}

/// Why the file `last` of the hub at the path `hub` can't be written, by what the system said.
pub(crate) fn of_note(error: &io::Error, hub: Text) -> Failure
    ensures { IsBefore result }
{
    match error.kind() {
        io::ErrorKind::OutOfMemory => Failure::Memory,
        _ => Failure::Noted(hub),
    }
}

/// Writes down that the night `before` of the hub `hub` is its last once the present one is moved; none if it has no other.
pub fn note_before<R: Files + AllocGlobal>(
    rt: &R,
    hub: &str,
    before: Option<&Text>,
) -> Result<(), Failure>
    ensures before { IfErr result IsBefore }
{
    let named = copy_text(rt.alloc(), hub.as_bytes())?;
    match note(rt, hub, before) {
        Ok(()) => Ok(()),
        Err(error) => Err(of_note(&error, named)),
    }
}
