//! What is wrong with the files of a setup, in words: `nighthub_check [--setup F] [--counters F] [--guide F]..`, from its arguments to its
//! status.
//!
//! Proved:
//! - what is printed is a line for each file that was given, the guides in their order, then the setup, then the counters, and after it a
//!   line for each of its warnings; and the status is 0 exactly where each of them is reported as taken, else 3 (`check_main`);
//! - what is reported of a file is what its bytes say: a guide is taken, with its size and just its warnings, where its reader gives it,
//!   and else refused in the words of its fault; a setup file or counters likewise, and where all can be read, by what `Setup::build` makes
//!   of just these rows: a setup that is taken has just its warnings, and the first refusal is reported with the counters where it is of
//!   one of them; a setup is left open only where another file is refused (`tell_files`, `judge_setup`);
//! - of a key that is refused the place, the value and one cause are those of the file's own table;
//! - of bytes that write no table the line and the column are those of the first byte that is no UTF-8, or else of a place in the file, and
//!   what is there is shown;
//! - where `--all` is given, what is said of each file further is what is wrong with each of its tables, rows and nodes by itself, by the
//!   definitions, and but for what its line says already; and the status is 0 only where nothing is;
//! - the bytes that are judged of a file are all that the file that was opened at its path declares; a file that can be read is never
//!   reported as unreadable, and one that can't never as a file of bytes;
//! - in each path and text that is printed, bytes that control a terminal are escaped;
//! - a failed run prints no line of a file, unless standard output itself failed; it ends with 2, 5 or 6; one that doesn't fail leaves
//!   standard error as it was;
//! - the arguments are read as clap's definitions say, and are usage only where they are no command line.
//!
//! Only tested: that the system opens the file that it is asked for, that the place in UTF-8 that is no TOML is where its fault is, and
//! that standard output holds what is printed, of which the system declares nothing.
//!
//! Source: own.
//!
//! Tests: `trial_explain`.
#![tactic(auto)]

mod all_lines;
mod command;
mod files;
mod further;
mod judge;
mod judged;
mod lines;
mod run;
mod told;
mod warned;

pub use command::{Asked, Options, PROGRAM, read_words};
pub use files::{Given, GivenFiles, read_file};
pub use further::said_of_files;
pub use judge::{SetupTold, judge_setup, tell_files};
pub use judged::{Judged, judge_guide};
pub use run::check_main;
pub use told::{FileTold, Listed, Told};
