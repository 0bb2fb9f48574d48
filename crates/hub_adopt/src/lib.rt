//! The nights of the script `run_night`, of releases up to 0.4.0, become the first nights of a hub.
//!
//! Proved:
//! - `adopt_on` succeeds only if each old night, in their order, is a night of the hub: it was there under its name and its moment, or it
//!   is made again by just the setup, the guides, the counters and the input in its own `from/`, by its own moment and name, after the
//!   nights before it, and is kept. Either gave what the old one gave, file by file and byte for byte (`IsDone`, `IsMadeAgain`,
//!   `GivesTheSame`);
//! - what is proved of a night that a hub runs is proved of each that is made again, since it is the same definition (`IsMadeOf`): with it
//!   all nights continue, each address begins where it was left, and it is kept by one rename;
//! - nothing is kept unless each old night is done and all of them continue, by themselves, as `check` says of their folder, and unless the
//!   hub has no more nights than there are old ones (`AreOldNights`, `CanBeAdopted`);
//! - whatever `adopt_on` answers, a stop leaves the nights as they were, or with some first old nights more (`stopped`);
//! - with status 0 `adopt_main` has printed just a line for each old night, or a text that was asked for, and nothing on standard error; it
//!   ends with 2 only if the arguments are wrong;
//! - `read_words` gives what the arguments ask for, as clap's definitions say.
//!
//! Only tested: that the old nights are only read, which refusal comes for which mistake, and what `hub_command` only tests.
//!
//! All nights of the hub are read again for each old night that is made again, so the time grows with the square of their number. A night,
//! its input, its own files and what the old night gave are in memory together.
//!
//! Source: own.
//!
//! Tests: `.ci/adopt`.
#![tactic(auto)]

mod adopt;
mod adoption;
mod again;
mod command;
mod given;
mod help;
mod lines;
mod next;
mod old;
mod program;
mod refusal;

pub use adopt::adopt_on;
pub use adoption::Adoption;
pub use command::{Asked, Options, begins_adopt, read_words};
pub use program::adopt_main;
pub use refusal::{Cause, Refusal};
