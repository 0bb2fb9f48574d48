//! `nighthub_learn [--known GUIDE].. [--set ST01] FILE..` prints a guide file that each set of the sample files meets, with a comment at
//! each line how often it was seen. Types and lengths of elements are those of the guides that are known, widened to the values that were
//! seen, or else a guess. A run that fails prints one line on standard error, and ends with 1 (no guide was learned), 2, 3, 4, 5 or 6
//! (docs/ERRORS.md).
//!
//! Proved: the program is safe on every input, and ends. If memory is refused for its arguments, it reports that. All else of a run is
//! `learn_command::learn_main`, called on the arguments without the program's name, and what is proved of it is said there.
#![tactic(auto)]

use file_names::arguments;
use learn_command::{PROGRAM, learn_main};
use program_frame::report_memory;
use std::io;
use std::process::ExitCode;

fn main(rt: HostRuntime) -> ExitCode {
    let mut out = io::writer(&rt);
    let stderr = rt.stderr();
    let mut err = io::writer(&stderr);
    let status = match arguments(&rt) {
        Ok(words) => learn_main(&rt, words.as_slice(), &mut out, &mut err),
        Err(_) => report_memory(PROGRAM, &mut err).status,
    };
    ExitCode::from(status)
}
