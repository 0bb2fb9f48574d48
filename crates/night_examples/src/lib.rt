//! Worked examples of the definition of a night: each public function is a theorem with nothing to run. Its contract says what the
//! definition gives for one text, byte for byte, and the prover computes it.
//!
//! - `night_laws`: complete nights of `tests/nights`, with their acknowledgments, mailboxes, reports and counters. `.ci/worked_nights`
//!   writes them, and the gate fails if they aren't those of the folder.
//! - `reading_laws`: what a partner reads in a night.
#![tactic(auto)]

mod night_laws;
mod reading_laws;
