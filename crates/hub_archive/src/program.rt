ghost use Rattle.std.specs.Prelude.{◌≡◌, ◌≢◌, ◌≤◌, ◌⊎◌, IfErr, IfOk, map};
ghost use Rattle.std.specs.Io.KnownBytes.{Appends};
ghost use Rattle.hub_archive.specs.Asked.{request_as};
ghost use Rattle.hub_archive.specs.CommandLine.{IsCommandLine};
ghost use Rattle.hub_archive.specs.Program as program;

use crate::archive::archive_on;
use crate::archiving::Archiving;
use crate::command::{Asked, Options, PROGRAM, read_words};
use crate::folders::settle;
use crate::lines::{archived_text, none_text};
use crate::refusal::{Cause, Refusal};
use hub_folder::{Lockable, Told, clock_text, lock_hub, path_text, see_intact};
use hub_kinds::{Text, copy_text};
use night_marks::number_in;
use night_review::limit;
use night_shelf::FolderShelf;
use program_frame::print_out;
use std::alloc::Global;
use std::convert::AsStr;
use std::io::Write;
use std::rt::Files;
use std::time::Clock;

/// Runs the program on its arguments, without its name, if these begin with `archive`, and gives its exit status: 0, or that of the refusal
/// whose lines it has printed on `err`.
pub fn archive_main<R, S, O, E>(rt: &R, words: &[S], out: &mut O, err: &mut E) -> u8
where
    R: Files + AllocGlobal + Clock + Clone + Drop,
    R::File: Lockable,
    S: AsStr,
    O: Write,
    E: Write,
    ensures status { program.IsStatus result }
    ensures silent { result ≢ 0 → result ≢ 5 → out.new ≡ out.old }
    ensures quiet { result ≡ 0 → err.new ≡ err.old }
    ensures usage { result ≡ 2 → IsCommandLine (map S.text words.now) → ⊥ }
    ensures printed { result ≡ 0 → program.IsRun (map S.text words.now) (O.contents out.old) (O.contents out.new) }
{
    match read_words(rt.alloc(), words) {
        Ok(Asked::Archive(options)) => end(rt.alloc(), archive(rt, &options), out, err),
        Ok(Asked::Show(text)) => print_out(PROGRAM, text.as_bytes(), 0, out, err),
        Err(mistake) => mistake.report(PROGRAM, err).status,
    }
}

/// Prints the line, or reports the refusal, and gives the status.
fn end<O: Write, E: Write>(
    alloc: Global,
    told: Result<Told, Refusal>,
    out: &mut O,
    err: &mut E,
) -> u8
    ensures status { program.IsStatus result }
    ensures words { result ≢ 2 }
    ensures silent { result ≢ 0 → result ≢ 5 → out.new ≡ out.old }
    ensures quiet { result ≡ 0 → err.new ≡ err.old }
    ensures printed { result ≡ 0 → program.IsTold told (O.contents out.old) (O.contents out.new) }
{
    match told {
        Ok(told) => print_out(PROGRAM, told.text.as_slice(), 0, out, err),
        Err(refusal) => refusal.report(alloc, err).status,
    }
}

/// What the options ask to archive.
fn archiving_of<'a>(options: &'a Options<'a>, limit: &'a [u8]) -> Archiving<'a>
    ensures { program.IsArchivingOf (request_as options.entry.now) result }
{
    Archiving {
        hub: options.hub,
        keep: options.keep,
        limit,
    }
}

/// The path of the folder of archives of the hub `hub`.
fn shelf_path<R: AllocGlobal>(rt: &R, hub: &str) -> Result<String, Refusal> {
    match path_text(rt.alloc(), hub, b"nights/.archived") {
        Ok(path) => Ok(path),
        Err(_) => Err(Refusal::Named(Cause::Unwritten, copy_text(rt.alloc(), hub.as_bytes())?)),
    }
}

/// What is printed of a hub whose folders were moved up to the night `last`, or of which none was.
fn told_of(alloc: Global, options: &Options<'_>, last: Option<Text>) -> Result<Told, Refusal>
    ensures { IfOk result (program.IsToldOf (request_as options.now)) }
{
    let hub = options.hub.as_bytes();
    match last {
        Some(name) => {
            let text = archived_text(alloc, hub, number_in(name.as_slice()))?;
            Ok(Told { text, status: 0 })
        }
        None => {
            let text = none_text(alloc, hub, options.keep)?;
            Ok(Told { text, status: 0 })
        }
    }
}

/// Keeps the archive that the options ask for, and says whether it did.
fn keep_old<R>(rt: &R, options: &Options<'_>) -> Result<bool, Refusal>
where
    R: Files + AllocGlobal + Clock + Clone + Drop,
    ensures { IfOk result (program.AreKept (request_as options.now)) }
{
    let limit = clock_text(limit(rt))?;
    let path = shelf_path(rt, options.hub)?;
    let mut shelf = FolderShelf::at(rt, path.as_str());
    let archiving = archiving_of(options, limit.as_bytes());
    archive_on(rt, &mut shelf, &archiving)
}

/// Archives what the options ask for.
fn archive_old<R>(rt: &R, options: &Options<'_>) -> Result<Told, Refusal>
where
    R: Files + AllocGlobal + Clock + Clone + Drop,
    ensures { IfOk result (program.AreArchived (request_as options.now)) }
{
    let _kept = keep_old(rt, options)?;
    let last = settle(rt, options.hub)?;
    told_of(rt.alloc(), options, last)
}

/// Archives what the options ask for, with the hub's lock, if the nights that it has are intact.
fn archive<R>(rt: &R, options: &Options<'_>) -> Result<Told, Refusal>
where
    R: Files + AllocGlobal + Clock + Clone + Drop,
    R::File: Lockable,
    ensures { IfOk result (program.IsArchivedHub (request_as options.now)) }
{
    let _lock = lock_hub(rt, options.hub)?;
    see_intact(rt, options.hub)?;
    archive_old(rt, options)
}
