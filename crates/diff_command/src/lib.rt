//! A run of `nighthub_diff`, from its arguments to its status: the arguments, the two guide files, what is printed, and samples.
//!
//! Proved:
//! - `read_words` gives what the arguments ask for, as clap's definitions say, and calls usage only what is none;
//! - `diff_main` prints just the text of the definition on the guides that the files at the two paths write, or a text that was asked for:
//!   a line for each difference, and totals;
//! - it ends with 0 exactly if each difference is wider, and then each set that meets the old guide, looked at alone, meets the new one;
//!   otherwise with 1;
//! - it ends with 2 only if the arguments are wrong, and with 3 only if a guide is refused or can't be read, in the words of
//!   `nighthub_check`; then, and if memory is refused, nothing is printed on standard output;
//! - with 0 or 1 nothing is printed on standard error; the lines of a failure are those that belong to it, and so is its status.
//!
//! What is put into the folder is proved in `diff_samples`. Only tested: that the system opens the file that it is asked for, that the
//! folder is a new one, and that samples are put there before the lines are printed.
//!
//! Source: own.
//!
//! Tests: `.ci/diff`.
#![tactic(auto)]

mod command;
mod failure;
mod guides;
mod run;
mod samples;

pub use command::{Asked, PROGRAM, Paths, read_words};
pub use failure::Failure;
pub use run::diff_main;
