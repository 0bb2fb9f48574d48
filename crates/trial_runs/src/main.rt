//! The trial of the two runs of a text that is held whole: `trial_runs OPTION.. plain` and `trial_runs OPTION.. night` take the options of
//! `nighthub` and end as it does, by `run_plain`, and by `run_night` with the workers and pieces that the options say. So what is tried of
//! the program is tried of these runs: whole nights, and each request for memory refused (`.ci/nights`, `.ci/want_of_memory`).
//!
//! Own.
#![tactic(auto)]

ghost use Rattle.std.specs.Prelude.{IfOk};
ghost use Rattle.night_command.specs.NightFiles.{IsForPartners};

use cut_plan::Cuts;
use hub_run::{Night, OpenGate, run_night, run_plain};
use night_command::{
    Asked, Directory, Failure, Options, Outcome, finish, open_at, put_night, read_at, read_words,
    setup_at,
};
use partner_setup::Setup;
use std::io::Write;
use std::process::ExitCode;
use std::rt::{Env, Files};
use std::sync::Wait;
use std::thread::Threads;
use std::time::Clock;
use std::{env, io};

fn main(rt: HostRuntime) -> ExitCode {
    let mut out = io::writer(&rt);
    let stderr = rt.stderr();
    let mut err = io::writer(&stderr);
    let status = match words(&rt) {
        Ok(words) => tried(&rt, words.as_slice(), &mut out, &mut err),
        Err(failure) => failure.report(&mut err),
    };
    ExitCode::from(status)
}

/// The program's arguments, without its name.
fn words<R: Env + AllocGlobal>(rt: &R) -> Result<Vec<String>, Failure<'static>> {
    let words = env::args(rt).map_err(|error| Failure::of_fault(error, Failure::Usage))?;
    words
        .skip(1)
        .collect::<Vec<String>>(rt.alloc())
        .map_err(|_| Failure::Memory)
}

fn tried<R, O, E>(rt: &R, words: &[String], out: &mut O, err: &mut E) -> u8
where
    R: Files + AllocGlobal + Threads + Wait + Clock + Sync,
    O: Write,
    E: Write,
{
    let Some((run, words)) = words.split_last() else {
        return Failure::Usage.report(err);
    };
    match read_words(rt.alloc(), words) {
        Ok(Asked::Run(options)) => match night_of(rt, &options, run.as_str() == "plain") {
            Ok(night) => finish(&Outcome::Ran(night), out, err),
            Err(failure) => failure.report(err),
        },
        Ok(Asked::Show(_)) => Failure::Usage.report(err),
        Err(failure) => failure.report(err),
    }
}

/// The night that these options name, whose files are put into their folder.
fn night_of<'a, R: Files + AllocGlobal + Threads + Wait + Clock + Sync>(
    rt: &R,
    options: &Options<'a>,
    plain: bool,
) -> Result<Night, Failure<'a>> {
    let guides = options.guides.as_slice();
    let setup = match setup_at(rt, guides, options.setup, options.counters) {
        Ok(setup) => setup,
        Err(failure) => return Err(failure),
    };
    let input = read_at(rt.alloc(), open_at(rt, options.input))?;
    let Some(text) = input.bytes() else {
        return Err(Failure::Input);
    };
    let night = night_by(rt, options, &setup, text.as_slice(), plain)?;
    let mut folder = Directory::at(rt, options.output);
    put_night(rt.alloc(), &night, &setup, &mut folder)?;
    Ok(night)
}

fn night_by<'a, R: AllocGlobal + Threads + Wait + Clock + Sync>(
    rt: &R,
    options: &Options<'a>,
    setup: &Setup,
    text: &[u8],
    plain: bool,
) -> Result<Night, Failure<'a>>
    ensures { IfOk result (IsForPartners setup.now) }
{
    let alloc = rt.alloc();
    if plain {
        let night = run_plain(alloc, text, setup, &options.at)?;
        return Ok(night);
    }
    let (workers, piece) = (options.sharing.workers, options.sharing.piece as usize);
    if workers < 1 || workers > 64 || piece < 1 {
        return Err(Failure::Usage);
    }
    let cuts = Cuts::every(alloc, text.len(), piece)?;
    let night = run_night(
        rt,
        alloc,
        text,
        setup,
        &options.at,
        workers,
        &cuts,
        &OpenGate,
    )?;
    Ok(night)
}
