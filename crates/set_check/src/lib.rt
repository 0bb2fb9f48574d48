//! The check of a transaction set by its guide: what is wrong with its segments and their elements, the codes that its
//! faults, its guide, its ST, its SE and its number of segments give, and the verdict.
//!
//! Proved:
//! - `check_set` finds exactly the faults of a set, each once and in their order, and its codes; there is neither a fault nor
//!   a code exactly where the set meets its guide, looked at alone: by the grammar, its elements, its hierarchy and its
//!   dependencies. Where an element fault and one of a hierarchy or dependency have one key, the element fault is reported;
//! - `check_set_fast` finds the same by a compiled guide, mostly on one walk over the set (`set_walk`);
//! - a `CheckedSet` keeps that its faults and codes are those of its span of its text by its own guide, and `is_clean`
//!   answers whether it meets that guide;
//! - `verdict` is accepted exactly where the set meets its guide and no earlier set of its group has its ST02, and accepted with
//!   errors exactly where all codes report faults and the guide tolerates each fault; `into_answer` is what an acknowledgment
//!   reads of the set;
//! - `clean_sets_meet_their_guides` and `accepted_sets_meet_their_guides` are the theorems of this by the definitions alone, and a set
//!   is checked in one way (`checks_are_one`).
//!
//! A set without a guide has code 1 and no fault: none of its segments is checked. The segments are found once.
//!
//! X12.6, transaction set, header (ST) and trailer (SE); 999 guide, IK3 to IK5.
//!
//! Tests: `trial_nights`, `trial_sets`.
#![tactic(auto)]

mod body;
mod check;
mod checked;
mod codes;
mod convention;
mod elements;
mod envelope;
mod fast;
mod faults;
mod finding;
mod law;
mod rules;
mod segments;
mod tolerance;
mod verdict;

pub use check::check_set;
pub use checked::CheckedSet;
pub use fast::check_set_fast;
pub use finding::Finding;
pub use law::{accepted_sets_meet_their_guides, checks_are_one, clean_sets_meet_their_guides};
