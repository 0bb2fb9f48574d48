//! One walk over a set by its compiled guide, segment by segment, with no list of them: its ends, and what is wrong with its structure
//! and its elements.
//!
//! Proved: where `walk_set` gives a `WalkedSet`, the set's segments are ST, a body and, where it is closed, SE; its faults are exactly
//! those of the body's structure and of its elements, by the places that the guide gives, in order, each once; and there isn't a fault of
//! its hierarchy or of a dependency (`IsWalkedSet`). By a guide without such rules it gives each set of fewer than 4,294,967,296
//! segments, whatever is wrong with it. By one that has them it gives none where they may be broken, as with more than four
//! dependencies. `tell_elements` adds exactly the element faults of one segment.
//!
//! Only the HLs, with their elements HL01 to HL04, and the segments whose slots have labels are kept, which the rules over the
//! whole set look at after the walk.
//!
//! Source: X12.6, transaction set; the 999 guide (005010X231), IK3 and IK4. The walk is own.
//!
//! Tests: `trial_nights`, `trial_sets`.
#![tactic(auto)]

mod depends;
mod ends;
mod hierarchy;
mod kept;
mod named;
mod rules;
mod seen;
mod told;
mod walk;
mod walked;
mod whole;

pub use ends::Ends;
pub use told::tell_elements;
pub use walked::WalkedSet;
pub use whole::walk_set;
