//! Where each set of a night is, as the arguments of a program name it: the arguments are read, then the files that they name; the night of
//! what came in is worked out, and its table is put into a file. A run that fails prints one line. The program `nighthub_track` is
//! `track_main`, called on its arguments, standard output and standard error.
//!
//! Proved:
//! - `track_main` is safe on every input, its status is 0 to 6, and it prints nothing where it wasn't asked for a text; where it doesn't
//!   fail, it has put the table of the night of some text, by a setup that the bytes of some files make, which were asked for by the
//!   paths that the arguments name, and by the documents that they name;
//! - a night is only tracked once the system said that nothing is at the path of its table, nor at the path beside it at which the table is
//!   written first (`Free`, which `run_by` takes);
//! - the input is what was opened at the path that the options name, read from its first byte on, and its table is put at the path that
//!   they name (`give_opened`); that file is written beside it and renamed (`Places`);
//! - a mistake of the arguments is named in the line that is printed (`TrackFailure::Usage`);
//! - a table that is given is that of the bytes that its source declared; it was put into the outbox, where the outbox declares what it
//!   has; the status is 0 exactly where the night's report is clean (`give_track`);
//! - a run that fails has put nothing that an outbox declares (`left`); it fails by the failures of `nighthub`, in their order.
//!
//! Only tested: that the system opens, makes and renames the file at the path that it is asked for, that this file holds what is put
//! there, and that a failure prints its line.
//!
//! Source: RFC 4180; the command line and the statuses are own.
//!
//! Tests: `trial_track`.
#![tactic(auto)]

mod command;
mod failure;
mod free;
mod track;
mod whole;

pub use command::Options;
pub use failure::TrackFailure;
pub use free::{Free, is_free};
pub use track::{give_opened, give_track, track_in, track_main};
pub use whole::Places;
