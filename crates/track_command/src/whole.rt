ghost use Rattle.std.specs.Prelude.{◌≡◌, IfOk, Some, string_bytes};
ghost use Rattle.std.specs.List.{flat_map};
ghost use Rattle.system_io.specs.Paths.{AsksForNew};

use crate::free::part_path;
use hub_kinds::Lent;
use std::alloc::Global;
use std::fs::OpenFile;
use std::io::ErrorKind;
use std::rt::Files;
use std::{fs, io};
use system_io::{Created, Outbox, Written, create_new_at, faults_behind, write_and_sync};

/// The places that paths name. Each of them has its file whole, or not at all.
#[derive(Drop)]
pub struct Places<'a, R> {
    rt: &'a R,
    faults: u64,
}

impl<'a, R: Files + AllocGlobal> Places<'a, R> {
    ghost use Rattle.std.specs.Prelude.{◌≡◌, ℕ, List, Some};

    /// Those of the system, of which no put has failed.
    pub fn of(rt: &'a R) -> Places<'a, R>
        ensures faults { ⟦<Places<'a, R> as Outbox>⟧.faults result ≡ 0 }
        ensures path { (name : List ℕ) → ⟦<Places<'a, R> as Outbox>⟧.path result name ≡ Some name }
    {
        Places { rt, faults: 0 }
    }
}

impl<'a, R: Files + AllocGlobal> Outbox for Places<'a, R> {
    ghost faults = { λ p. p.faults };

    ghost path = { λ _ name. Some name };

    fn put<'f>(&mut self, name: &'f [u8], parts: &'f [Lent<'f>]) -> io::Result<Written<'f>> {
        let answer = put_whole(self.rt, name, parts);
        self.faults = faults_behind(&answer, self.faults);
        answer
    }
}

/// Puts a file at the path that is its name: beside it first, and there by one rename once all of it is kept. Where that fails, neither
/// is left.
fn put_whole<'f, R: Files + AllocGlobal>(
    rt: &R,
    name: &'f [u8],
    parts: &'f [Lent<'f>],
) -> io::Result<Written<'f>>
    ensures file { IfOk result (λ written. written.file ≡ (name.now, flat_map (λ part. part) parts.now)) }
    ensures path { IfOk result (λ written. written.path ≡ name.now) }
{
    let path = path_of(rt.alloc(), name)?;
    let beside = part_path(rt.alloc(), path.as_str())?;
    let created = create_new_at(rt, beside)?;
    let written = write_closed(rt, created, name, parts)?;
    put_in_place(rt, written, path)
}

/// Writes a file that was made where nothing was, and closes it. Where that fails, it isn't left.
fn write_closed<'f, R: Files + AllocGlobal>(
    rt: &R,
    created: Created<R::File>,
    name: &'f [u8],
    parts: &'f [Lent<'f>],
) -> io::Result<Written<'f>>
    requires { AsksForNew created.how }
    ensures { IfOk result (λ written. written.file ≡ (name.now, flat_map (λ part. part) parts.now)) }
{
    let mut created = created;
    match write_and_sync(rt.alloc(), &mut created, name, parts) {
        Ok(written) => Ok(written),
        Err(error) => {
            let _ = rt.remove_file(created.path());
            Err(error)
        }
    }
}

/// The path that a name is.
fn path_of(alloc: Global, name: &[u8]) -> io::Result<String>
    ensures { IfOk result (λ path. string_bytes path ≡ name.now) }
{
    let mut path = Vec::new(alloc);
    path.extend_from_slice(name)?;
    match String::from_utf8(path) {
        Ok(path) => Ok(path),
        Err(_) => Err(io::Error::from(ErrorKind::InvalidInput)),
    }
}

/// Renames a file, and asks the system to keep its name in the folder. Where that fails, it is under neither name.
fn put_in_place<'f, R: Files>(rt: &R, written: Written<'f>, path: String) -> io::Result<Written<'f>>
    ensures file { IfOk result (λ placed. placed.file ≡ written.entry.file) }
    ensures path { IfOk result (λ placed. placed.path ≡ string_bytes path) }
{
    let mut written = written;
    if let Err(error) = written.rename(rt, path) {
        let _ = rt.remove_file(written.path());
        return Err(error);
    }
    if let Err(error) = keep_names(rt, folder_of(written.path())) {
        let _ = rt.remove_file(written.path());
        return Err(error);
    }
    Ok(written)
}

fn keep_names<R: Files>(rt: &R, folder: &str) -> io::Result<()> {
    fs::open(rt, folder)?.sync_all()
}

/// The folder of a path.
fn folder_of(path: &str) -> &str {
    match path.rfind('/') {
        None => ".",
        Some(0) => "/",
        Some(at) => &path[..at],
    }
}
