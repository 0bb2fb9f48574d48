//! `nighthub_check [--setup F] [--counters F] [--guide F]..` says in words what is wrong with the files of a setup, before the night: on
//! standard output a line for each file, the guides in their order, then the setup, then the counters. Status 0 says that each is taken,
//! 3 that one isn't; a run that fails prints one line on standard error and ends with 2, 5 or 6.
//!
//! Proved: the program is safe on every input, and ends. If memory is refused for its arguments, it reports that. All else of a run is
//! `check_command::check_main`, called on the arguments without the program's name, and what is proved of it is said there.
#![tactic(auto)]

use check_command::{PROGRAM, check_main};
use file_names::arguments;
use program_frame::report_memory;
use std::io;
use std::process::ExitCode;

fn main(rt: HostRuntime) -> ExitCode {
    let mut out = io::writer(&rt);
    let stderr = rt.stderr();
    let mut err = io::writer(&stderr);
    let status = match arguments(&rt) {
        Ok(words) => check_main(&rt, words.as_slice(), &mut out, &mut err),
        Err(_) => report_memory(PROGRAM, &mut err).status,
    };
    ExitCode::from(status)
}
