//! The night of a hub, as its arguments name it: the arguments are read, then the files that they name; the night of what came in is
//! run, read as a stream and shared among workers, its files are put into a folder, and the last line of its report is printed. A run that
//! fails prints one line. The program `nighthub` is `night_main`, called on its arguments, standard output and standard error.
//!
//! Proved, where a call returns (it waits for its workers):
//! - `night_main` is safe on every input, and its status is 0 to 6;
//! - a run that doesn't fail has printed what its arguments ask for, and nothing else, where the writer declares what it has: help or
//!   the version where they ask for that; otherwise the last line of the report of the night (`IsNight` of `night_definition`) of
//!   some text, no longer than the limit, at the moment that the arguments name, by a setup that the bytes of some files make, which
//!   were asked for by the paths that the arguments name; each partner can read its acknowledgments, and the status is 0 exactly where
//!   that report is clean (`night_main`, `printed`);
//! - the input is what was opened at the path that the options name, read from its first byte on, and its night is put into the folder
//!   that they name (`give_opened`); the guides, the setup and the counters are what was opened at theirs (`read_at`, `setup_at`);
//! - how many workers share a night, and how long the pieces are that they take, is what the arguments say, from 1 to 64 and from 1 to
//!   4,294,967,295, or 4 and 1,048,576 (`AreOptions`); whatever these are, the night is the same;
//! - the setup of files is what their bytes make, all of it, or their first refusal: of the guides in their order, of the
//!   setup file, of the counters file, of what they make together, a file that can't be read being refused at its place;
//!   files that make a setup have no refusal, and only out of memory comes before the first one (`setup_of`);
//! - a night that is given is the complete night of the bytes that its source declared, its setup and its moment; its files were put into
//!   the outbox, after what that had, where the outbox declares what it has; the last line of its report was printed, where the writer
//!   declares what it has; and the status is 0 exactly where it is clean (`give_night`, `given`); each partner can read its
//!   acknowledgments, by whatever guide files (`night_in`, `night`);
//! - an input is reported as too long only where the source declared more than the limit, where it declares what it has, and gave more,
//!   which it counts; and unreadable exactly where the source failed, or was interrupted more than 1,000 times in a row (`night_in`,
//!   `long`, `many`, `unread`, `tried`); before it is read it is refused exactly where opening it failed, or the system says that it is
//!   longer than the limit (`input_of`);
//! - a run that fails has put none of the files of a night, or a front part of them; one whose input is too long or can't be read leaves
//!   the outbox as it was (`give_night`, `left`, `none`; `night_in`, `too_long`, `none`, `some`);
//! - the files of a night are put into the outbox when all of it is known, those of each partner in the order of the setup,
//!   then the report and the counters; where one can't be put it is named, exactly where a put failed in this call, and those before it
//!   are there (`put_night`); a put failed out of memory exactly where the error's kind says so (`PutFault::of_error`);
//! - a failed run leaves standard output as it was, unless it ends with 5; a night that fails leaves it so, unless all of its files were
//!   put (`give_night`, `silent`); a run that doesn't fail leaves standard error as it was; the line of a failure is what the definitions
//!   say (`Failure`);
//! - a run says usage only where its arguments are no command line, and blames setup or input only where they name the files
//!   and the moment of a night; which arguments do is said by clap's definitions.
//!
//! Only tested: that the system opens the file at the path that it is asked for, since no contract says what a file of the system holds;
//! that a folder of the system holds what is put there, and standard output what is printed, since neither declares what it has; and
//! that a failure prints its line, since no contract says when a write fails.
//!
//! As its trials call it:
//!
//! ```
//! let words = words_in(rt.alloc(), folder)?;
//! let mut out = Vec::new(rt.alloc());
//! let mut err = Vec::new(rt.alloc());
//! let status = night_main(rt, words.as_slice(), &mut out, &mut err);
//! ```
//!
//! Source: X12.5, interchange; X12.6, functional group and transaction set; the 999 guide (005010X231); the command line,
//! the files and the statuses are this hub's own.
//!
//! Tests: `trial_command`, `trial_track`.
#![tactic(auto)]

mod command;
mod failure;
mod input;
mod night;
mod night_files;
mod options;
mod outbox;
mod outcome;
mod put_fault;
mod setup;
mod setup_files;
mod sharing;
mod words;

pub use command::{Asked, Options, read_words};
pub use failure::Failure;
pub use input::source_of;
pub use night::{give_night, give_opened, night_in, night_main};
pub use night_files::put_night;
pub use options::{moment_given, option_wanted, with_night};
pub use outcome::{Outcome, finish};
pub use put_fault::PutFault;
pub use setup::{setup_at, setup_of};
pub use setup_files::{FileAt, SetupFiles, read_at};
pub use sharing::{Sharing, piece_option, sharing_given, workers_option};
pub use system_io::{
    Created, Directory, Opened, Outbox, Reader, Written, create_at, open_at, read_whole,
    write_and_sync,
};
pub use words::program_words;
