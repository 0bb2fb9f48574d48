//! What is known of a text once its sets are checked: its interchanges with senders and faults, the standing of each of their
//! groups, and each set at its place in them. Text and index are lent; a placed set is 24 bytes, and is read where it stands.
//!
//! Proved:
//! - a `JudgedInterchange` gives back what it was made of, and its sets are in their spans of the text;
//! - a `PlacedSet`, made by the numbers of its group and of itself, is that set of its interchange, with the group, the standing and
//!   the delimiters that it is read by; its segments are those of its span, and a byte that isn't in `stretch` is in none
//!   of them, and `stretch_behind_header`, read alone, has those after its ST;
//! - `all_sets` lends the sets of interchanges one after the other, front to back: all of them, each once (`PlacedSets`);
//! - `is_fa` and `is_refused` are their definitions.
//!
//! Source: X12.5, interchange; X12.6, functional group and transaction set; 999 guide, AK9 and IK501. What is kept of them is own.
//!
//! Tests: `trial_nights`.
#![tactic(auto)]

mod answered;
mod asked;
mod judged;
mod placed;
mod sets;
mod standing;

pub use answered::ta1_note;
pub use asked::{is_fa, is_refused};
pub use judged::JudgedInterchange;
pub use placed::PlacedSet;
pub use sets::{PlacedSets, all_sets};
pub use standing::GroupStanding;
