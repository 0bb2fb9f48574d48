//! Hierarchies: what is wrong with the tree that the HL segments of a set make, by the rule that a guide has for it.
//!
//! Proved: `check_hl` gives exactly the faults of the hierarchy, each once, by position and element: a number that an
//! earlier HL has or that isn't the count where the guide asks for it (HL01), a parent that no earlier HL is (HL02), a
//! level that isn't listed below that of the parent (HL03), children that are announced and don't come, or come unannounced
//! (HL04). Where the guide has no rule there is none.
//!
//! `IsHierarchyWhole` of `specs/Hierarchy.antt` says of HL segments alone that nothing is wrong with them; where each segment
//! of a body has a place that leads to a slot, there isn't a fault exactly then (`proofs/Whole.antt`). Where `is_hierarchy_whole`
//! says yes of HL segments that were found before, they are whole, and where `look_whole` does of HL01 to HL04 that were kept of
//! them.
//!
//! HLs that are numbered by their count, name earlier ones, and have the children that they announce at once, `look_whole` sees
//! to be whole in one walk over what was kept of them, which takes no memory. By the other two calls numbers are looked up in an
//! ordered map and an ordered set, so that the cost follows the bytes, but for a logarithm, whatever numbers somebody chooses;
//! nothing goes as deep as the hierarchy.
//!
//! Source: X12.6, hierarchical level segment (HL); the 999 guide (005010X231), IK4. Which code means which fault is
//! own.
//!
//! Tests: `trial_nights`, `trial_sets`.
#![tactic(auto)]

mod backward;
mod check;
mod fault;
mod forward;
mod hls;
mod known;
mod levels;
mod names;
mod rules;

pub use check::{check_hl, is_hierarchy_whole};
pub use levels::look_whole;
pub use names::HlNames;
