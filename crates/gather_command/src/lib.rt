//! A run of `nighthub_gather`, from its arguments to its status: the files of a day, one after another, as one file.
//!
//! Proved:
//! - `read_words` gives what the arguments ask for, as clap's definitions say, and calls usage only what is none;
//! - `gather_all` writes the files that are taken one after another, each closed as `gather_files` says of the bytes that were read of it,
//!   and nothing of a file that is set aside: because of these bytes, because it changed while it was read, or because its name isn't
//!   UTF-8; its lines and its total are those of just these files; a night reads what is written as it reads each of these files alone,
//!   one after another;
//! - what is read at a path is what was opened there; a file that can't be opened or read is never taken or set aside;
//! - the line of a failure is the one that belongs to it, and so is its status; a report says whether the line is printed; `gather_main`
//!   ends with a status of these, with 0 where each file is taken whole, with 1 where one is cut off or set aside.
//!
//! Only tested: that the file is written beside its place, synced, and put there by one rename, or else taken away; and that a file is
//! another where its time of change is.
//!
//! Source: own.
//!
//! Tests: `.ci/gather`.
#![tactic(auto)]

mod all;
mod changed;
mod command;
mod failure;
mod gather;
mod lines;
mod outcome;
mod part;
mod total;

pub use all::{Gathering, gather_all};
pub use changed::is_changed;
pub use command::{Asked, Job, PROGRAM, read_words};
pub use failure::Failure;
pub use gather::gather_main;
pub use lines::append_outcome;
pub use outcome::{Outcome, taken_of};
pub use part::Part;
pub use total::Total;
