//! A guide was changed: what the old and the new one say otherwise, and whether the new one is wider.
//!
//! Proved:
//! - `differences` gives just the differences that the definition lists, in its order: of the head, the hierarchy, the dependencies, then
//!   node by node and element by element, each with its place, what it does to the sets that meet the guide, and both values;
//! - none of them is narrower or can't be compared exactly where the new guide is wider (`is_wider`).
//!
//! That each set which meets the old guide then meets the new one is proved in `widening_law`. A new guide is wider where it is for the
//! same sets, its nodes are the old ones in their order, each used as little and as often, new ones may be absent, and no pick, element,
//! condition, level of the hierarchy, dependency or convention is stricter. A guide that is wider otherwise isn't known by this.
//!
//! The faults that don't reject a set are compared, although no set that meets a guide has one: where one is gone, sets that were accepted
//! with errors are rejected. The name, the dictionary, reference numbers and codes that are known and not used aren't compared: none of
//! them says whether a set meets the guide.
//!
//! Cost: conditions, pairs of levels, dependencies and codes are searched, n log n in their bytes. Nodes are compared one by one, each old
//! one with new ones up to the same one: 2,000 by 2,000 at most, by picks of 40 positions at most.
//!
//! Source: own; X12.6, transaction sets, segments and data elements.
#![tactic(auto)]

mod changes;
mod codes;
mod components;
mod conditions;
mod dependencies;
mod difference;
mod elements;
mod guides;
mod hierarchy;
mod keys;
mod nodes;
mod picks;
mod push;
mod rows;
mod slots;
mod tolerance;
mod values;
mod walk;
mod written;

pub use difference::{At, Change, Difference, Key, Presence, Value};
pub use guides::{are_widenings, differences};
pub use written::{condition_written, dependency_written, pair_written};
