//! `nighthub_track --setup F --guide F.. --counters F --at CCYYMMDDHHMM --in F --track FILE [--document SET=SEGELEMENT].. [--workers N]
//! [--piece BYTES]` says where each set of a night is: it works out the night that `nighthub` would run by the same arguments, and writes
//! into FILE a row for each set and receiver, as comma-separated values (docs/OPERATIONS.md). It writes no other file, and prints nothing.
//! Status 0 says that the night is clean, 1 that it isn't; a run that fails prints one line on standard error and ends with 2 to 6
//! (docs/ERRORS.md).
//!
//! Proved: the program is safe on every input, and it ends. Where its arguments can't be had, that is reported as usage or as out of
//! memory, and as nothing else (`program_words`). All else of a run is `track_command::track_main`, called on the arguments without the
//! program's name, and what is proved of it is said there.
#![tactic(auto)]

use night_command::program_words;
use std::io;
use std::process::ExitCode;
use track_command::{TrackFailure, track_main};

fn main(rt: HostRuntime) -> ExitCode {
    let mut out = io::writer(&rt);
    let stderr = rt.stderr();
    let mut err = io::writer(&stderr);
    let status = match program_words(&rt) {
        Ok(words) => track_main(&rt, words.as_slice(), &mut out, &mut err),
        Err(failure) => TrackFailure::Night(failure).report(&mut err),
    };
    ExitCode::from(status)
}
