//! A run of `nighthub_learn`, from its arguments to its status: the guides that are known, the sample files, the guide that is printed.
//!
//! Proved:
//! - `read_words` gives what the arguments ask for, as clap's definitions say, and calls usage only what is none;
//! - if `learn_main` ends with 0, it has printed a text that was asked for; or a text that describes a guide, by the definition of guide
//!   files, and this guide takes each file that was read at the paths: each set that is asked for, of each interchange without one of the
//!   faults 1 to 7, has the guide's GS01, GS08 and ST01 and meets the guide, looked at alone; and there is such a set;
//! - it ends with 2 only if the arguments are wrong, and with 3 only if a guide that is said to be known is refused or can't be read;
//! - it prints nothing on standard output unless it ends with 0 or 5, and with 0 nothing on standard error; the line and the status of a
//!   failure are its own.
//!
//! Not proved: which guide is proposed, and that there is one; its comments. Only tested: that the system opens the file that it is asked
//! for.
//!
//! Source: own.
//!
//! Tests: `.ci/learn`.
#![tactic(auto)]

mod causes;
mod chosen;
mod command;
mod failure;
mod files;
mod judged;
mod proposed;
mod run;

pub use command::{Asked, Options, PROGRAM, read_words};
pub use failure::Failure;
pub use run::learn_main;
