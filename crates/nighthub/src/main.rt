//! `nighthub --setup F --guide F.. --counters F --at CCYYMMDDHHMM --in F --out DIR [--workers N] [--piece BYTES]` runs the night of a
//! hub: it reads what came in, X12 interchanges one after another, and writes into DIR, which exists, for each partner `NAME.ack`, its
//! acknowledgments, and `NAME.box`, its mailbox, then `report.txt` and `counters.toml`, the counters of the next night. On
//! standard output it prints the report's last line. `--guide` is given once for each guide; N workers, 1 to 64, share the night, and
//! take BYTES of the input at a time. Status 0 says that the night was clean, 1 that it wasn't; a run that fails prints one line on
//! standard error and ends with 2 to 6 (docs/ERRORS.md).
//!
//! Proved: the program is safe on every input; it waits for its workers, and so isn't claimed to end. Where its arguments can't be had,
//! that is reported as usage or as out of memory, and as nothing else (`program_words`). All else of a run is `night_command::night_main`,
//! called on the arguments without the program's name, and what is proved of it is said there.
#![tactic(auto)]

use night_command::{night_main, program_words};
use std::io;
use std::process::ExitCode;

fn main(rt: HostRuntime) -> ExitCode {
    let mut out = io::writer(&rt);
    let stderr = rt.stderr();
    let mut err = io::writer(&stderr);
    let status = match program_words(&rt) {
        Ok(words) => night_main(&rt, words.as_slice(), &mut out, &mut err),
        Err(failure) => failure.report(&mut err),
    };
    ExitCode::from(status)
}
