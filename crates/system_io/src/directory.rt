ghost use Rattle.std.specs.Prelude.{◌≡◌, ◌≢◌, [], IfOk, OnOk, string_bytes, Some};
ghost use Rattle.std.specs.List.{flat_map};
ghost use Rattle.system_io.specs.Outbox.{path_in};

use crate::creating::create_at;
use crate::outbox::{Outbox, faults_behind};
use crate::written::{Written, room_for_parts, write_in_room};
use hub_kinds::Lent;
use std::alloc::Global;
use std::io;
use std::io::ErrorKind;
use std::rt::Files;

/// A folder of the system, by its path.
#[derive(Drop)]
pub struct Directory<'a, R> {
    rt: &'a R,
    path: &'a str,
    faults: u64,
}

impl<'a, R: Files + AllocGlobal> Directory<'a, R> {
    ghost use Rattle.std.specs.Prelude.{◌≡◌, ℕ, List, Some};
    ghost use Rattle.system_io.specs.Outbox.{path_in};

    /// The folder at this path, of which no put has failed.
    pub fn at(rt: &'a R, path: &'a str) -> Directory<'a, R>
        ensures faults { ⟦<Directory<'a, R> as Outbox>⟧.faults result ≡ 0 }
        ensures path { (name : List ℕ) → ⟦<Directory<'a, R> as Outbox>⟧.path result name ≡ Some (path_in path.now name) }
    {
        Directory {
            rt,
            path,
            faults: 0,
        }
    }
}

impl<'a, R: Files + AllocGlobal> Outbox for Directory<'a, R> {
    ghost faults = { λ d. d.faults };

    ghost path = { λ d name. Some (path_in d.path.now name) };

    fn put<'f>(&mut self, name: &'f [u8], parts: &'f [Lent<'f>]) -> io::Result<Written<'f>> {
        let answer = write_file(self.rt, self.path, name, parts);
        self.faults = faults_behind(&answer, self.faults);
        answer
    }
}

/// Writes a file of this name into a folder. It is closed where that returns.
fn write_file<'f, R: Files + AllocGlobal>(
    rt: &R,
    folder: &str,
    name: &'f [u8],
    parts: &'f [Lent<'f>],
) -> io::Result<Written<'f>>
    ensures file { IfOk result (λ written. written.file ≡ (name.now, flat_map (λ part. part) parts.now)) }
    ensures path { IfOk result (λ written. written.path ≡ path_in folder.now name.now) }
{
    let path = path_in(rt.alloc(), folder, name)?;
    let room = room_for_parts(rt.alloc())?;
    let mut created = create_at(rt, path)?;
    write_in_room(room, &mut created, name, parts)
}

/// The path of a file in a folder. An empty path is none of a folder.
fn path_in(alloc: Global, folder: &str, name: &[u8]) -> io::Result<String>
    ensures some { OnOk result (folder.now ≢ []) }
    ensures path { IfOk result (λ path. string_bytes path ≡ path_in folder.now name.now) }
{
    if folder.is_empty() {
        return Err(io::Error::from(ErrorKind::NotFound));
    }
    let mut path = Vec::new(alloc);
    path.extend_from_slice(folder.as_bytes())?;
    path.push(b'/')?;
    path.extend_from_slice(name)?;
    match String::from_utf8(path) {
        Ok(path) => Ok(path),
        Err(_) => Err(io::Error::from(ErrorKind::InvalidInput)),
    }
}
