//! `nighthub_page [--samples DIR] GUIDE` prints a page for a browser on a guide file: its segments in their order, each segment's elements,
//! conditions, levels, dependencies, what is tolerated, a complete sample, and what the 999 says if a rule is broken. With `--samples` it
//! makes the folder DIR and puts samples there: the complete one, the smallest one, one that breaks just one rule for each rule, and
//! `index.csv`, which lists what the 999 says of each of these. A run that fails prints on standard error, and ends with 1 (no sample was
//! found), 2, 3, 5 or 6 (docs/ERRORS.md).
//!
//! Proved: the program is safe on every input, and ends. If memory is refused for its arguments, it reports that. All else of a run is
//! `page_command::page_main`, called on the arguments without the program's name, and what is proved of it is said there.
#![tactic(auto)]

use file_names::arguments;
use page_command::{PROGRAM, page_main};
use program_frame::report_memory;
use std::io;
use std::process::ExitCode;

fn main(rt: HostRuntime) -> ExitCode {
    let mut out = io::writer(&rt);
    let stderr = rt.stderr();
    let mut err = io::writer(&stderr);
    let status = match arguments(&rt) {
        Ok(words) => page_main(&rt, words.as_slice(), &mut out, &mut err),
        Err(_) => report_memory(PROGRAM, &mut err).status,
    };
    ExitCode::from(status)
}
