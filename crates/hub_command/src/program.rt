ghost use Rattle.std.specs.Prelude.{◌≡◌, ◌≢◌, ◌≤◌, ◌⊎◌, IfErr, IfOk, map, option_map};
ghost use Rattle.std.specs.Io.KnownBytes.{Appends};
ghost use Rattle.night_command.specs.CommandLine.{CanShare};
ghost use Rattle.hub_command.specs.Asked.{run_in};
ghost use Rattle.hub_command.specs.CommandLine.{IsCommandLine};
ghost use Rattle.hub_folder.specs.Failure.{IsBefore, IsUnprinted};
ghost use Rattle.hub_command.specs.Program as program;
ghost use Rattle.hub_folder.specs.Programs.{IsProgramLine};

use crate::command::{Asked, Options, PROGRAM, read_words};
use crate::give_up::{give_up_last, give_up_tonight};
use crate::init::init_hub;
use crate::progress::{clear, show};
use crate::run::run_on;
use hub_folder::{
    Failure, Lockable, Told, clock_text, lock_hub, note_last_night, program_line, see_intact,
};
use hub_night::Setting;
use night_review::{limit, moment_now};
use night_shelf::FolderShelf;
use program_frame::print_out;
use std::alloc::Global;
use std::convert::AsStr;
use std::io::Write;
use std::rt::Files;
use std::sync::Wait;
use std::thread::Threads;
use std::time::Clock;

/// Runs the program on its arguments, without its name, if these begin with a command of a hub, and gives its exit status: the
/// command's, or the failure's, whose lines it has printed on `err`. A run shows its current step on `shown`, and clears it at the end.
pub fn hub_main<R, S, O, E, P>(rt: &R, words: &[S], out: &mut O, err: &mut E, shown: &mut P) -> u8
where
    R: Files + AllocGlobal + Threads + Wait + Clock + Sync + Clone + Drop,
    R::File: Lockable,
    S: AsStr,
    O: Write,
    E: Write,
    P: Write,
    ensures status { program.IsStatus result }
    ensures silent { 2 ≤ result → result ≢ 5 → out.new ≡ out.old }
    ensures quiet { result ≤ 1 → err.new ≡ err.old }
    ensures usage { result ≡ 2 → IsCommandLine (map S.text words.now) → ⊥ }
    ensures printed { result ≤ 1 → program.IsRun (map S.text words.now) result (O.contents out.old) (O.contents out.new) }
{
    match read_words(rt.alloc(), words) {
        Ok(Asked::Init(hub)) => end(rt.alloc(), init_hub(rt, hub), out, err),
        Ok(Asked::Run(hub, options)) => end(
            rt.alloc(),
            run_hub(rt, hub, &options, shown),
            out,
            err,
        ),
        Ok(Asked::GiveUp(hub, not_sent)) => end(rt.alloc(), give_up(rt, hub, not_sent), out, err),
        Ok(Asked::Show(text)) => print_out(PROGRAM, text.as_bytes(), 0, out, err),
        Err(mistake) => mistake.report(PROGRAM, err).status,
    }
}

/// Prints the lines, or reports the failure, and gives the status.
fn end<O: Write, E: Write>(
    alloc: Global,
    told: Result<Told, Failure>,
    out: &mut O,
    err: &mut E,
) -> u8
    requires before { IfErr told IsUnprinted }
    requires values { IfOk told (λ told. told.status ≤ 1) }
    ensures status { program.IsStatus result }
    ensures words { result ≢ 2 }
    ensures silent { 2 ≤ result → result ≢ 5 → out.new ≡ out.old }
    ensures quiet { result ≤ 1 → err.new ≡ err.old }
    ensures printed { result ≤ 1 → program.IsTold told result (O.contents out.old) (O.contents out.new) }
{
    match told {
        Ok(told) => print_out(PROGRAM, told.text.as_slice(), told.status, out, err),
        Err(failure) => failure.report(alloc, err).status,
    }
}

/// What the night is called.
fn name_of<'a>(options: &'a Options<'_>) -> &'a [u8]
    ensures { result.now ≡ program.name_of options.entry.now }
{
    match options.name {
        Some(name) => name.as_bytes(),
        None => options.at.digits(),
    }
}

/// The night of the hub `hub` that the options name, which the program of the sum `sum` makes.
fn setting_of<'a>(
    hub: &'a str,
    options: &'a Options<'a>,
    limit: &'a [u8],
    clock: &'a [u8],
    sum: &'a [u8],
) -> Setting<'a>
    requires program { IsProgramLine sum.now }
    ensures asked { program.IsSettingOf hub.entry.now (run_in options.entry.now) result }
    ensures sharing { result.sharing ≡ options.entry.now.sharing }
{
    Setting {
        hub,
        files: options.files.as_slice(),
        again: options.again.as_slice(),
        at: options.at,
        name: name_of(options),
        sharing: options.sharing,
        limit,
        clock,
        program: sum,
    }
}

/// Runs the night that `options` name of the hub `hub`, with its lock, if the nights that it has are intact, and writes down which one is
/// the last.
fn run_locked<R, P>(
    rt: &R,
    hub: &str,
    options: &Options<'_>,
    shown: &mut P,
) -> Result<Told, Failure>
where
    R: Files + AllocGlobal + Threads + Wait + Clock + Sync + Clone + Drop,
    R::File: Lockable,
    P: Write,
    requires sharing { CanShare options.now.sharing }
    ensures told { IfOk result (program.IsNightRun hub.now (run_in options.now)) }
    ensures values { IfOk result (λ told. told.status ≤ 1) }
    ensures before { IfErr result IsUnprinted }
{
    let _lock = lock_hub(rt, hub)?;
    show(shown, "looking at the nights of the hub");
    see_intact(rt, hub)?;
    let limit = clock_text(limit(rt))?;
    let clock = clock_text(moment_now(rt))?;
    let program = program_line(rt)?;
    let mut shelf = FolderShelf::at(rt, hub);
    let setting = setting_of(
        hub,
        options,
        limit.as_bytes(),
        clock.as_bytes(),
        program.as_slice(),
    );
    let told = run_on(rt, &mut shelf, &setting, shown)?;
    note_last_night(rt, hub)?;
    Ok(told)
}

/// Runs the night that `options` name of the hub `hub`, and clears what `shown` shows of it.
fn run_hub<R, P>(rt: &R, hub: &str, options: &Options<'_>, shown: &mut P) -> Result<Told, Failure>
where
    R: Files + AllocGlobal + Threads + Wait + Clock + Sync + Clone + Drop,
    R::File: Lockable,
    P: Write,
    requires sharing { CanShare options.now.sharing }
    ensures told { IfOk result (program.IsNightRun hub.now (run_in options.now)) }
    ensures values { IfOk result (λ told. told.status ≤ 1) }
    ensures before { IfErr result IsUnprinted }
{
    let told = run_locked(rt, hub, options, shown);
    clear(shown);
    told
}

/// Gives up what is under way, or the last night.
fn give_up<R>(rt: &R, hub: &str, not_sent: bool) -> Result<Told, Failure>
where
    R: Files + AllocGlobal + Clone + Drop,
    R::File: Lockable,
    ensures done { IfOk result (program.IsGivenUp hub.now not_sent) }
    ensures values { IfOk result (λ told. told.status ≡ 0) }
    ensures before { IfErr result IsBefore }
{
    let _lock = lock_hub(rt, hub)?;
    if not_sent {
        give_up_last(rt, hub)
    } else {
        give_up_tonight(rt, hub)
    }
}
