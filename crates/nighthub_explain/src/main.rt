//! `nighthub_explain NAME.ack` says in words what a partner's acknowledgments report, read from the file that nighthub writes: on standard
//! output a line for each TA1, for each group and set that isn't accepted a line for each fault, and a last line of totals. Status 0 says
//! that this was printed; a run that fails prints one line on standard error and ends with 2, 4, 5 or 6 (docs/ERRORS.md).
//!
//! Proved: the program is safe on every input, and ends. If memory is refused for its arguments, it reports that. All else of a run is
//! `explain_command::explain_main`, called on the arguments without the program's name, and what is proved of it is said there.
#![tactic(auto)]

use explain_command::{PROGRAM, explain_main};
use file_names::arguments;
use program_frame::report_memory;
use std::io;
use std::process::ExitCode;

fn main(rt: HostRuntime) -> ExitCode {
    let mut out = io::writer(&rt);
    let stderr = rt.stderr();
    let mut err = io::writer(&stderr);
    let status = match arguments(&rt) {
        Ok(words) => explain_main(&rt, words.as_slice(), &mut out, &mut err),
        Err(_) => report_memory(PROGRAM, &mut err).status,
    };
    ExitCode::from(status)
}
