ghost use Rattle.std.specs.Prelude.{◌≡◌, IfOk, OnErr, OnOk};
ghost use Rattle.std.specs.Io.KnownBytes.{Appends};
ghost use Rattle.std.specs.List.{flat_map};

use crate::creating::Created;
use hub_kinds::Lent;
use std::alloc::Global;
use std::fs::OpenFile;
use std::io::Write;
use std::marker::Model;
use std::rt::Files;
use std::{fs, io, mem};

/// How many bytes of small parts are written together.
const TOGETHER: usize = 262_144;

/// That a file was written: the path at which it is, its name, and its bytes, in parts. Only `write_and_sync` makes one.
#[derive(Drop)]
pub struct Written<'a> {
    path: String,
    name: &'a [u8],
    parts: &'a [Lent<'a>],
}

impl<'a> Model for Written<'a> {
    ghost use Rattle.std.specs.Prelude.{string_bytes};
    ghost use Rattle.std.specs.List.{flat_map};
    ghost use Rattle.system_io.specs.Paths.{WrittenFile};

    ghost Value = { WrittenFile };

    ghost view = { λ w. record { path = string_bytes w.path; file = (w.name.now, flat_map (λ part. part) w.parts.now) } };
}

impl<'a> Written<'a> {
    ghost use Rattle.std.specs.Prelude.{◌≡◌, OnErr, OnOk, string_bytes};

    /// The path at which the file is.
    pub fn path(&self) -> &str
        ensures { result.now ≡ self.now.path }
    {
        self.path.as_str()
    }

    /// Gives the file another path.
    pub fn rename<R: Files>(&mut self, rt: &R, path: String) -> io::Result<()>
        ensures file { self.new.file ≡ self.old.file }
        ensures done { OnOk result (self.new.path ≡ string_bytes path) }
        ensures stays { OnErr result (self.new.path ≡ self.old.path) }
    {
        fs::rename(rt, self.path.as_str(), path.as_str())?;
        self.path = path;
        Ok(())
    }
}

/// Room in which small parts are put together. A file is made only after it, so that no lack of memory leaves a part of a file.
pub(crate) fn room_for_parts(alloc: Global) -> io::Result<Vec<u8>> {
    Ok(Vec::with_capacity(alloc, TOGETHER)?)
}

/// Writes parts, one after the other, the small ones together in this room.
fn write_parts<F: Write>(room: Vec<u8>, file: &mut F, parts: &[Lent<'_>]) -> io::Result<()>
    ensures { OnOk result (Appends (F.contents file.old) (F.contents file.new) (flat_map (λ part. part) parts.now)) }
{
    let mut row = room;
    row.clear();
    for i in 0..parts.len() {
        let part = parts[i].bytes();
        if row.len() + part.len() < TOGETHER {
            row.extend_from_slice(part)?;
        } else {
            file.write_all(row.as_slice())?;
            row.clear();
            file.write_all(part)?;
        }
    }
    file.write_all(row.as_slice())
}

/// Writes the file that was made, of this name, which holds these parts, one after the other, and asks the system to keep it: all bytes
/// are written, flushed and synced. Errors: the system's first one, of whichever of these calls; out of memory, and nothing is written.
pub fn write_and_sync<'a, F: Write + OpenFile>(
    alloc: Global,
    created: &mut Created<F>,
    name: &'a [u8],
    parts: &'a [Lent<'a>],
) -> io::Result<Written<'a>>
    ensures file { IfOk result (λ written. written.file ≡ (name.now, flat_map (λ part. part) parts.now)) }
    ensures path { IfOk result (λ written. written.path ≡ created.old.path) }
    ensures bytes { OnOk result (Appends (F.contents created.old.file) (F.contents created.new.file)
        (flat_map (λ part. part) parts.now)) }
    ensures stays { OnErr result (created.new.path ≡ created.old.path) }
{
    let room = room_for_parts(alloc)?;
    write_in_room(room, created, name, parts)
}

/// Writes a file likewise, in this room.
pub(crate) fn write_in_room<'a, F: Write + OpenFile>(
    room: Vec<u8>,
    created: &mut Created<F>,
    name: &'a [u8],
    parts: &'a [Lent<'a>],
) -> io::Result<Written<'a>>
    ensures file { IfOk result (λ written. written.file ≡ (name.now, flat_map (λ part. part) parts.now)) }
    ensures path { IfOk result (λ written. written.path ≡ created.old.path) }
    ensures bytes { OnOk result (Appends (F.contents created.old.file) (F.contents created.new.file)
        (flat_map (λ part. part) parts.now)) }
    ensures stays { OnErr result (created.new.path ≡ created.old.path) }
{
    let alloc = *room.allocator();
    write_parts(room, &mut created.file, parts)?;
    created.file.flush()?;
    sync(&created.file)?;
    let path = mem::replace(&mut created.path, String::new(alloc));
    Ok(Written { path, name, parts })
}

/// Asks the system to keep what was written. Only a regular file is kept: a pipe, a terminal or the null device refuses to be synced.
fn sync<F: OpenFile>(file: &F) -> io::Result<()> {
    if file.metadata()?.is_file() {
        file.sync_all()?;
    }
    Ok(())
}
