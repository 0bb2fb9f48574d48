//! The chain of a hub's records: each night's record has the next number, names the record before it, and lists the files of its night.
//!
//! Proved:
//! - `chain_breaks` gives exactly what breaks the chain after a night that is before it, night by night: a number that isn't one more than
//!   the one before, a record that isn't the one which the next night names, and each file that is gone, is changed or isn't listed in the
//!   night's record;
//! - it gives nothing exactly if the nights are chained;
//! - `append_breaks` writes a line for each of them, in which no name ends the line.
//!
//! A chain says nothing of its last record: whoever changes that one, or makes all records anew, isn't seen. Nor is a change of a file that
//! no record lists: `from/at`, `from/before`, `from/in.sum`, `sums` and `done`.
//!
//! Source: own; FIPS 180-4 (SHA-256).
#![tactic(auto)]

mod breaks;
mod chain;
mod files;
mod known;
mod lines;
mod links;
mod night;

pub use breaks::{ChainBreak, FileFault, OtherNumber, OtherRecord, WrongFile};
pub use chain::chain_breaks;
pub use lines::append_breaks;
pub use night::ReadNight;
