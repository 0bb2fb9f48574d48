//! `nighthub_gather OUT FILE..` puts the files of a day one after another, so that none touches its neighbour: each from its first header
//! on, and closed at its end. On standard output it prints a line for each file and a total. Status 0 says that each file is taken whole,
//! 1 that one is cut off or set aside; a run that fails makes no file, prints one line on standard error, and ends with 2, 4, 5 or 6
//! (docs/ERRORS.md).
//!
//! Proved: the program is safe on every input, and ends. If memory is refused for its arguments, it reports that. All else of a run is
//! `gather_command::gather_main`, called on the arguments without the program's name, and what is proved of it is said there.
#![tactic(auto)]

use file_names::arguments;
use gather_command::{PROGRAM, gather_main};
use program_frame::report_memory;
use std::io;
use std::process::ExitCode;

fn main(rt: HostRuntime) -> ExitCode {
    let mut out = io::writer(&rt);
    let stderr = rt.stderr();
    let mut err = io::writer(&stderr);
    let status = match arguments(&rt) {
        Ok(words) => gather_main(&rt, words.as_slice(), &mut out, &mut err),
        Err(_) => report_memory(PROGRAM, &mut err).status,
    };
    ExitCode::from(status)
}
