//! Whether a guide takes a sample file.
//!
//! Proved: where `unmet_of` finds nothing in a text, the guide takes the text: each set that is asked for, of each interchange without one
//! of the faults 1 to 7, has the GS01, GS08 and ST01 of the guide and meets it, looked at alone (`TakesText`, in the words of
//! `night_definition`). A set that is accepted with errors noted doesn't meet its guide. `has_set` says that a text has a set that is asked
//! for, in such an interchange, only if it has one (`HasSet`). Each call ends.
//!
//! Not proved: that the words on a set that isn't taken are those of its first fault.
//!
//! Source: X12.5, interchange; X12.6, functional groups and transaction sets. What is asked for is own.
#![tactic(auto)]

mod judge;
mod presence;
mod words;

pub use judge::{Unmet, unmet_of};
pub use presence::has_set;
