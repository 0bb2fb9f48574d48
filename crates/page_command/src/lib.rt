//! A run of `nighthub_page`, from its arguments to its status: the arguments, the guide file, a names file, the page that is printed, and
//! a folder of samples.
//!
//! Proved:
//! - `read_words` gives what the arguments ask for, as clap's definitions say, and calls usage only what is none;
//! - if `page_main` ends with 0, it has printed the page of the guide that the file at the path writes (`IsPage`), with the words that the
//!   names file writes, if one is given, or a text that was asked for; without a names file nothing on standard error. The sample in the
//!   page meets the guide, and each answer in it is what a 999 says of a text that breaks one rule of the guide, and no other; beside it
//!   are the words that `nighthub_explain` has for it;
//! - it ends with 2 only if the arguments are wrong, and with 3 only if the guide is refused or can't be read, in the words of
//!   `nighthub_check`, or the names file is, in the words of `names_file`; unless standard output itself failed, nothing is printed there
//!   then;
//! - what `put_samples` puts into a folder is the complete sample, a smaller one, at most one for each rule, under the rule's number, and
//!   the list `index.csv`, which has just these with what the 999 says of each (`AddsSamples`);
//! - the line of a failure is the one that belongs to it, and so is its status.
//!
//! Only tested: that the system opens the file that it is asked for, that the folder is a new one, that samples are put there before
//! the page is printed, and that the warnings of a names file are printed. Status 1 says that no sample was found, and nothing of the
//! guide.
//!
//! Source: own.
//!
//! Tests: `.ci/samples`.
#![tactic(auto)]

mod answers;
mod command;
mod failure;
mod folder;
mod index;
mod page;
mod run;
mod words;

pub use command::{Asked, PROGRAM, Paths, read_words};
pub use failure::Failure;
pub use folder::put_samples;
pub use run::page_main;
