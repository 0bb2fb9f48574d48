//! `nighthub_day init HUB`, `run HUB` and `give-up HUB` make a folder a hub and run its nights one after another: each is kept only if
//! all nights with it continue. `nighthub_day adopt HUB NIGHTS` makes the nights of the script `run_night` the first nights of a hub, and
//! `nighthub_day archive HUB --keep N` archives old ones.
//! The other commands only read. `nighthub_day check NIGHTS` says whether each night of a folder continues
//! from those before it: on standard output a line for each set that is delivered twice, each address whose numbers don't continue, each
//! file that isn't what its night gave, and a line of totals; then the same of the nights' records, if one can be read.
//! `nighthub_day find NIGHTS TEXT` prints a line for each row of the nights' tables whose document has TEXT, and
//! `nighthub_day export [--sheet] NIGHTS` prints these tables as one. Status 0 says of `check` that each night continues, of `find` that a
//! row was found and each table was read, and of `export` that each table was read;
//! otherwise it is 1. A run that fails prints one line on standard error and ends with 2, 4, 5 or 6 (docs/ERRORS.md).
//!
//! Proved: the program is safe on every input, and ends. If memory is refused for its arguments, it reports that. All else of a run is
//! `hub_command::hub_main`, `hub_adopt::adopt_main`, `hub_archive::archive_main` or `day_command::day_main`, called on the arguments
//! without the program's name, and what is proved of them is said there.
#![tactic(auto)]

use day_command::{Failure, day_main};
use file_names::arguments;
use hub_adopt::{adopt_main, begins_adopt};
use hub_archive::{archive_main, begins_archive};
use hub_command::{Terminal, hub_main, is_of_hub};
use std::io;
use std::io::IsTerminal;
use std::process::ExitCode;

fn main(rt: HostRuntime) -> ExitCode {
    let mut out = io::writer(&rt);
    let stderr = rt.stderr();
    let mut err = io::writer(&stderr);
    let mut shown = Terminal {
        to: io::writer(&stderr),
        is_terminal: stderr.is_terminal(),
    };
    let status = match arguments(&rt) {
        Ok(words) if is_of_hub(words.as_slice()) => hub_main(
            &rt,
            words.as_slice(),
            &mut out,
            &mut err,
            &mut shown,
        ),
        Ok(words) if begins_archive(words.as_slice()) => archive_main(
            &rt,
            words.as_slice(),
            &mut out,
            &mut err,
        ),
        Ok(words) if begins_adopt(words.as_slice()) => adopt_main(
            &rt,
            words.as_slice(),
            &mut out,
            &mut err,
        ),
        Ok(words) => day_main(&rt, words.as_slice(), &mut out, &mut err),
        Err(_) => Failure::Memory.report(&mut err).status,
    };
    ExitCode::from(status)
}
