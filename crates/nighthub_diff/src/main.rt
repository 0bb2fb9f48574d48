//! `nighthub_diff [--samples DIR] OLD NEW` compares two guide files: on standard output a line for each difference, which says whether it
//! is narrower, wider or other, where it is and what both guides say, and a last line of totals. It only reads, but for DIR, which it makes
//! and fills with samples. Status 0 says that each difference is wider, and then each set that meets OLD, looked at alone, meets NEW; 1
//! that one isn't; a run that fails prints on standard error, and ends with 2, 3, 5 or 6 (docs/ERRORS.md).
//!
//! Proved: the program is safe on every input, and ends. If memory is refused for its arguments, it reports that. All else of a run is
//! `diff_command::diff_main`, called on the arguments without the program's name, and what is proved of it is said there.
#![tactic(auto)]

use diff_command::{PROGRAM, diff_main};
use file_names::arguments;
use program_frame::report_memory;
use std::io;
use std::process::ExitCode;

fn main(rt: HostRuntime) -> ExitCode {
    let mut out = io::writer(&rt);
    let stderr = rt.stderr();
    let mut err = io::writer(&stderr);
    let status = match arguments(&rt) {
        Ok(words) => diff_main(&rt, words.as_slice(), &mut out, &mut err),
        Err(_) => report_memory(PROGRAM, &mut err).status,
    };
    ExitCode::from(status)
}
