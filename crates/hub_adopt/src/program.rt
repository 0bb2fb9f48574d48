ghost use Rattle.std.specs.Prelude.{◌≡◌, ◌≢◌, ◌≤◌, ◌⊎◌, IfErr, IfOk, map};
ghost use Rattle.std.specs.Io.KnownBytes.{Appends};
ghost use Rattle.night_command.specs.CommandLine.{CanShare};
ghost use Rattle.hub_adopt.specs.Asked.{request_as};
ghost use Rattle.hub_folder.specs.Programs.{IsProgramLine};
ghost use Rattle.hub_adopt.specs.CommandLine.{IsCommandLine};
ghost use Rattle.hub_adopt.specs.Program as program;

use crate::adopt::adopt_on;
use crate::adoption::Adoption;
use crate::command::{Asked, Options, PROGRAM, read_words};
use crate::refusal::Refusal;
use hub_folder::{Lockable, Told, clock_text, lock_hub, note_last_night, program_line, see_intact};
use night_review::{limit, moment_now};
use night_shelf::FolderShelf;
use program_frame::print_out;
use std::alloc::Global;
use std::convert::AsStr;
use std::io::Write;
use std::rt::Files;
use std::sync::Wait;
use std::thread::Threads;
use std::time::Clock;

/// Runs the program on its arguments, without its name, if these begin with `adopt`, and gives its exit status: 0, or that of the refusal
/// whose lines it has printed on `err`.
pub fn adopt_main<R, S, O, E>(rt: &R, words: &[S], out: &mut O, err: &mut E) -> u8
where
    R: Files + AllocGlobal + Threads + Wait + Clock + Sync + Clone + Drop,
    R::File: Lockable,
    S: AsStr,
    O: Write,
    E: Write,
    ensures status { program.IsStatus result }
    ensures silent { result ≢ 0 → result ≢ 5 → out.new ≡ out.old }
    ensures quiet { result ≡ 0 → err.new ≡ err.old }
    ensures usage { result ≡ 2 → IsCommandLine (map S.text words.now) → ⊥ }
    ensures printed { result ≡ 0 → program.IsRun (map S.text words.now) (O.contents out.old) (O.contents out.new) }
{
    match read_words(rt.alloc(), words) {
        Ok(Asked::Adopt(options)) => end(rt.alloc(), adopt(rt, &options), out, err),
        Ok(Asked::Show(text)) => print_out(PROGRAM, text.as_bytes(), 0, out, err),
        Err(mistake) => mistake.report(PROGRAM, err).status,
    }
}

/// Prints the lines, or reports the refusal, and gives the status.
fn end<O: Write, E: Write>(
    alloc: Global,
    told: Result<Told, Refusal>,
    out: &mut O,
    err: &mut E,
) -> u8
    ensures status { program.IsStatus result }
    ensures words { result ≢ 2 }
    ensures silent { result ≢ 0 → result ≢ 5 → out.new ≡ out.old }
    ensures quiet { result ≡ 0 → err.new ≡ err.old }
    ensures printed { result ≡ 0 → program.IsTold told (O.contents out.old) (O.contents out.new) }
{
    match told {
        Ok(told) => print_out(PROGRAM, told.text.as_slice(), 0, out, err),
        Err(refusal) => refusal.report(alloc, err).status,
    }
}

/// The adoption that the options name, by the program of the sum `sum`.
fn adoption_of<'a>(
    options: &'a Options<'a>,
    limit: &'a [u8],
    clock: &'a [u8],
    sum: &'a [u8],
) -> Adoption<'a>
    requires program { IsProgramLine sum.now }
    ensures asked { program.IsAdoptionOf (request_as options.entry.now) result }
    ensures sharing { result.sharing ≡ options.entry.now.sharing }
{
    Adoption {
        hub: options.hub,
        nights: options.nights,
        sharing: options.sharing,
        limit,
        clock,
        program: sum,
    }
}

/// Makes the old nights that `options` names nights of the hub.
fn adopt_old<R>(rt: &R, options: &Options<'_>) -> Result<Told, Refusal>
where
    R: Files + AllocGlobal + Threads + Wait + Clock + Sync + Clone + Drop,
    requires sharing { CanShare options.now.sharing }
    ensures { IfOk result (program.AreMadeNights (request_as options.now)) }
{
    let limit = clock_text(limit(rt))?;
    let clock = clock_text(moment_now(rt))?;
    let program = program_line(rt)?;
    let mut shelf = FolderShelf::at(rt, options.hub);
    let adoption = adoption_of(
        options,
        limit.as_bytes(),
        clock.as_bytes(),
        program.as_slice(),
    );
    adopt_on(rt, &mut shelf, &adoption)
}

/// Adopts the old nights that `options` names, with the hub's lock, if the nights that the hub has are intact, and writes down which one is
/// the last.
fn adopt<R>(rt: &R, options: &Options<'_>) -> Result<Told, Refusal>
where
    R: Files + AllocGlobal + Threads + Wait + Clock + Sync + Clone + Drop,
    R::File: Lockable,
    requires sharing { CanShare options.now.sharing }
    ensures { IfOk result (program.AreNightsOfHub (request_as options.now)) }
{
    let _lock = lock_hub(rt, options.hub)?;
    see_intact(rt, options.hub)?;
    let told = adopt_old(rt, options)?;
    note_last_night(rt, options.hub)?;
    Ok(told)
}
