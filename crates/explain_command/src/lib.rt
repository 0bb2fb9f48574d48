//! A run of `nighthub_explain`, from its arguments to its status: the arguments, the file, what is printed.
//!
//! Proved:
//! - `read_words` gives what the arguments ask for, as clap's definitions say, and calls usage only what is none;
//! - `explain_main` prints just the lines on the files that the arguments name, in their order, of several each with its file's path in
//!   front, or a text that was asked for. It ends with 0 where each file is explained, and whole, with 4 where one is refused or cut off,
//!   and with 2 only where the arguments are no command line; where memory is refused it prints nothing on standard output;
//! - where a names file is given, the lines have the names that its bytes write; it ends with 3 only where that file is refused or can't
//!   be read, and then prints nothing on standard output;
//! - a file is cut off just where a byte but CR and LF is after its last terminator, or else an ST without an SE after it;
//! - what is reported of a file is what all of its bytes say, where it was opened and declares them, and `input` where it couldn't be
//!   opened (`tell_opened`, of which what is printed of a file is one call);
//! - a text that was read is refused only if it has bytes, and these don't begin with a header, are a 997, or report nothing and aren't
//!   cut off; never as one that can't be read (`explained`);
//! - the lines that are printed on standard error are those of just the files that are cut off or refused, in their order; in each path
//!   that is printed, bytes that control a terminal are escaped;
//! - of a mistake in the arguments, of memory and of standard output it says what `program_frame` proves.
//!
//! Source: own.
//!
//! Tests: `trial_explain`.
#![tactic(auto)]

mod command;
mod ends;
mod explain;
mod failure;
mod files;
mod run;

pub use command::{Asked, PROGRAM, Paths, read_words};
pub use ends::{CutOff, SetId};
pub use explain::{Account, explained, explained_file};
pub use failure::Failure;
pub use files::{FileTold, Told, tell_opened};
pub use run::explain_main;
