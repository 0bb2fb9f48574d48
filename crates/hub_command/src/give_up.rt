ghost use Rattle.std.specs.Prelude.{◌≡◌, IfErr, IfOk, List, ℕ};
ghost use Rattle.hub_folder.specs.Failure.{IsBefore};
ghost use Rattle.hub_command.specs.Lines as lines;

use crate::words::{append_ended, append_hub, append_words};
use file_names::append_shown;
use hub_folder::{Failure, Told, last_names, note_before, path_text};
use hub_kinds::{NoMemory, Text, copy_text};
use night_shelf::{FolderShelf, Shelf, ShelfFault};
use std::alloc::Global;
use std::fs::OpenFile;
use std::rt::Files;
use std::{fs, io};

/// Removes the folder of a night that isn't kept, if there is one.
pub(crate) fn give_up_tonight<R: Files + AllocGlobal + Clone + Drop>(
    rt: &R,
    hub: &str,
) -> Result<Told, Failure>
    ensures text { IfOk result (λ told. told.text.items ≡ lines.cleared_text hub.now) }
    ensures status { IfOk result (λ told. told.status ≡ 0) }
    ensures before { IfErr result IsBefore }
{
    let mut shelf = FolderShelf::at(rt, hub);
    match shelf.clear() {
        Ok(()) => {}
        Err(ShelfFault::Memory) => return Err(Failure::Memory),
        Err(ShelfFault::Failed) => return Err(Failure::Keep),
    }
    let mut text = Vec::new(rt.alloc());
    append_shown(&mut text, hub.as_bytes())?;
    text.extend_from_slice(b": nothing is under way\n")?;
    Ok(Told { text, status: 0 })
}

/// Moves the folder `name` of the nights to the folder given-up, and syncs both.
fn move_night<R: Files + AllocGlobal>(rt: &R, hub: &str, name: &[u8]) -> io::Result<()> {
    let nights = path_text(rt.alloc(), hub, b"nights")?;
    let aside = path_text(rt.alloc(), hub, b"given-up")?;
    fs::create_dir_all(rt, aside.as_str())?;
    let from = path_text(rt.alloc(), nights.as_str(), name)?;
    let to = path_text(rt.alloc(), aside.as_str(), name)?;
    if fs::exists(rt, to.as_str())? {
        return Err(io::Error::from(io::ErrorKind::AlreadyExists));
    }
    fs::rename(rt, from.as_str(), to.as_str())?;
    fs::open(rt, nights.as_str())?.sync_all()?;
    fs::open(rt, aside.as_str())?.sync_all()
}

/// Why the night `name` can't be moved, by what the system said.
fn of_move(error: &io::Error, name: Text) -> Failure
    ensures { IsBefore result }
{
    match error.kind() {
        io::ErrorKind::OutOfMemory => Failure::Memory,
        _ => Failure::Given(name),
    }
}

/// What is printed of a night that is moved to given-up.
fn text_of(alloc: Global, hub: &[u8], name: &[u8]) -> Result<Vec<u8>, NoMemory>
    ensures { IfOk result (λ text. text.items ≡ lines.given_up_text hub.now name.now) }
{
    let mut text = Vec::new(alloc);
    append_words(&mut text, "night ", name)?;
    append_hub(&mut text, " is given up: ", hub)?;
    append_ended(&mut text, "/given-up/", name)?;
    Ok(text)
}

/// Moves the last night of the hub `hub` aside, of which nothing was sent: the night before it is the last again.
pub(crate) fn give_up_last<R: Files + AllocGlobal + Clone + Drop>(
    rt: &R,
    hub: &str,
) -> Result<Told, Failure>
    ensures text { IfOk result (λ told. (name : List ℕ) × (told.text.items ≡ lines.given_up_text hub.now name)) }
    ensures status { IfOk result (λ told. told.status ≡ 0) }
    ensures before { IfErr result IsBefore }
{
    let (name, before) = last_names(rt, hub)?;
    let text = text_of(rt.alloc(), hub.as_bytes(), name.as_slice())?;
    note_before(rt, hub, before.as_ref())?;
    match move_night(rt, hub, name.as_slice()) {
        Ok(()) => Ok(Told { text, status: 0 }),
        Err(error) => Err(of_move(&error, name)),
    }
}
