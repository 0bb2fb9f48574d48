ghost use Rattle.std.specs.Prelude.{◌≡◌, IfOk, string_bytes};
ghost use Rattle.night_shelf.specs.Paths.{path_in};

use crate::night::NightFile;
use crate::shelf::{Shelf, ShelfFault};
use hub_kinds::{Items, Text};
use std::alloc::Global;
use std::fs::{OpenFile, OpenOptions};
use std::io::{ErrorKind, Write};
use std::marker::Model;
use std::rt::Files;
use std::{fs, io};

/// A hub's folder of the system: `tonight` in it is the folder of tonight, and `nights` has a folder for each night.
///
/// No contract says what the system does, so of this shelf nothing is known, and `keep` proves nothing of it by the clauses alone. What is
/// proved of `keep` holds of it if the system does what the calls below are for. This is all that is trusted:
///
/// 1. `create_dir` fails if the folder is there; when it succeeds, the folder is there and empty.
/// 2. A file that `create_new` opened was not there. When `write_all` succeeds, the file has the bytes; when `sync_all` of the file then
///    succeeds, its bytes are on the disk.
/// 3. When `sync_all` of a folder succeeds, the names in it are on the disk. A file's own folders below `tonight` are synced with it.
/// 4. `rename` is all or nothing: a stop during it or after it leaves the folder under one of its two names, with all that was on the disk.
/// 5. When `sync_all` of the folders `nights` and of the hub then succeeds, a stop leaves it under the new name.
/// 6. Nobody else writes to these folders meanwhile. The caller takes a lock for that.
///
/// Each call is one call of the system and the check of its answer, but for the folders of a file, which are made and synced one by one.
#[derive(Drop)]
pub struct FolderShelf<'a, R> {
    rt: &'a R,
    hub: &'a str,
}

impl<'a, R> Model for FolderShelf<'a, R> {
    ghost use Rattle.std.specs.Prelude.{ℕ, List};

    ghost Value = { List ℕ };

    ghost view = { λ shelf. shelf.hub.now };
}

impl<'a, R> FolderShelf<'a, R> {
    ghost use Rattle.std.specs.Prelude.{◌≡◌};

    /// The shelf in the folder at the path `hub`.
    pub fn at(rt: &'a R, hub: &'a str) -> FolderShelf<'a, R>
        ensures { result ≡ hub.entry.now }
    {
        FolderShelf { rt, hub }
    }
}

impl<'a, R: Files + AllocGlobal + Clone + Drop> Shelf for FolderShelf<'a, R> {
    fn clear(&mut self) -> Result<(), ShelfFault> {
        answer(remove_tonight(self.rt, self.hub))
    }

    fn make(&mut self) -> Result<(), ShelfFault> {
        answer(make_tonight(self.rt, self.hub))
    }

    fn put(&mut self, file: &NightFile) -> Result<(), ShelfFault> {
        answer(put_file(self.rt, self.hub, file))
    }

    fn sync_tonight(&mut self) -> Result<(), ShelfFault> {
        answer(sync_in(self.rt, self.hub, b"tonight"))
    }

    fn rename(&mut self, name: &[u8]) -> Result<(), ShelfFault> {
        answer(rename_tonight(self.rt, self.hub, name))
    }

    fn sync_nights(&mut self) -> Result<(), ShelfFault> {
        answer(sync_nights(self.rt, self.hub))
    }

    fn nights(&self) -> Result<Vec<Text>, ShelfFault> {
        match names_in(self.rt, self.hub) {
            Ok(names) => Ok(names),
            Err(error) => Err(fault_of(error)),
        }
    }
}

fn fault_of(error: io::Error) -> ShelfFault {
    match error.kind() {
        ErrorKind::OutOfMemory => ShelfFault::Memory,
        _ => ShelfFault::Failed,
    }
}

fn answer(done: io::Result<()>) -> Result<(), ShelfFault> {
    match done {
        Ok(()) => Ok(()),
        Err(error) => Err(fault_of(error)),
    }
}

/// The path of `name` in `folder`.
fn path_in(alloc: Global, folder: &str, name: &[u8]) -> io::Result<String>
    ensures { IfOk result (λ path. string_bytes path ≡ path_in folder.now name.now) }
{
    let mut path = Vec::new(alloc);
    path.extend_from_slice(folder.as_bytes())?;
    path.push(b'/')?;
    path.extend_from_slice(name)?;
    match String::from_utf8(path) {
        Ok(path) => Ok(path),
        Err(_) => Err(io::Error::from(ErrorKind::InvalidInput)),
    }
}

fn remove_tonight<R: Files + AllocGlobal>(rt: &R, hub: &str) -> io::Result<()> {
    let tonight = path_in(rt.alloc(), hub, b"tonight")?;
    if fs::exists(rt, tonight.as_str())? {
        rt.remove_dir_all(rt.alloc(), tonight.as_str())?;
    }
    Ok(())
}

fn make_tonight<R: Files + AllocGlobal>(rt: &R, hub: &str) -> io::Result<()> {
    let tonight = path_in(rt.alloc(), hub, b"tonight")?;
    fs::create_dir(rt, tonight.as_str())
}

/// Syncs the folder `name` in `folder`.
fn sync_in<R: Files + AllocGlobal>(rt: &R, folder: &str, name: &[u8]) -> io::Result<()> {
    let path = path_in(rt.alloc(), folder, name)?;
    fs::open(rt, path.as_str())?.sync_all()
}

/// The folder of a path.
fn folder_of(path: &str) -> &str {
    match path.rfind('/') {
        None => ".",
        Some(0) => "/",
        Some(at) => &path[..at],
    }
}

/// Writes `file` into the folder of tonight, and syncs it and its folders below that one.
fn put_file<R: Files + AllocGlobal>(rt: &R, hub: &str, file: &NightFile) -> io::Result<()> {
    let tonight = path_in(rt.alloc(), hub, b"tonight")?;
    let path = path_in(rt.alloc(), tonight.as_str(), file.name.as_slice())?;
    fs::create_dir_all(rt, folder_of(path.as_str()))?;
    write_new(rt, path.as_str(), file.bytes.as_slice())?;
    sync_folders(rt, tonight.as_str(), file.name.as_slice())
}

/// Writes `bytes` into a new file at `path`, and syncs it.
fn write_new<R: Files>(rt: &R, path: &str, bytes: &[u8]) -> io::Result<()> {
    let mut how = OpenOptions::new();
    how.write(true);
    how.create_new(true);
    let mut file = how.open(rt, path)?;
    file.write_all(bytes)?;
    file.sync_all()
}

/// Syncs each folder in which the file `name` is, below `tonight`.
fn sync_folders<R: Files + AllocGlobal>(rt: &R, tonight: &str, name: &[u8]) -> io::Result<()> {
    for i in 0..name.len() {
        if name[i] == b'/' {
            sync_in(rt, tonight, &name[..i])?;
        }
    }
    Ok(())
}

fn rename_tonight<R: Files + AllocGlobal>(rt: &R, hub: &str, name: &[u8]) -> io::Result<()> {
    let tonight = path_in(rt.alloc(), hub, b"tonight")?;
    let nights = path_in(rt.alloc(), hub, b"nights")?;
    let night = path_in(rt.alloc(), nights.as_str(), name)?;
    fs::rename(rt, tonight.as_str(), night.as_str())
}

/// Syncs the folder of nights, and the hub's, which no longer has `tonight`.
fn sync_nights<R: Files + AllocGlobal>(rt: &R, hub: &str) -> io::Result<()> {
    sync_in(rt, hub, b"nights")?;
    fs::open(rt, hub)?.sync_all()
}

/// The names in the folder of nights, in the order of bytes.
fn names_in<R: Files + AllocGlobal + Clone + Drop>(rt: &R, hub: &str) -> io::Result<Vec<Text>> {
    let nights = path_in(rt.alloc(), hub, b"nights")?;
    let mut names = Vec::new(rt.alloc());
    for entry in fs::read_dir(rt, nights.as_str())? {
        let entry = entry?;
        let name = Vec::from_slice(rt.alloc(), entry.file_name().as_bytes())?;
        names.push(Items::from_vec(name))?;
    }
    names.sort_unstable_by(|a, b| a.as_slice().cmp(b.as_slice()));
    Ok(names)
}
