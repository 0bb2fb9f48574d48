//! Dependencies: what is wrong with a set by the dependencies that its guide has between segments.
//!
//! Proved: `check_dependencies` gives exactly the faults of the dependencies that are triggered, each once and in their
//! order. A dependency is triggered where some use of its slot, anywhere in the set, has one of its codes in an element.
//! Then a slot that it needs and that has no use is reported at the end; each use of a slot that it bans; each use of its
//! target that lacks a needed element, or has a banned one.
//!
//! `AreDependenciesKept` of `specs/Kept.antt` says of segments with their slots alone that they keep the dependencies of an
//! accepted guide; where each segment of a body has a place that leads to its slot, there isn't a fault exactly then
//! (`proofs/Whole.antt`).
//!
//! The cost follows the bytes of the set and of the dependencies, but for a logarithm: the uses of a slot are found by their
//! label, and gone over once for each element that triggers and once for each thing that is asked of the slot, however many
//! dependencies there are. Memory is taken for one entry a segment, one a dependency, and the texts that trigger; a guide
//! without dependencies takes neither time nor memory.
//!
//! Source: own; how it is reported, the 999 guide (005010X231), IK3 and IK4.
//!
//! Tests: `trial_nights`, `trial_sets`.
#![tactic(auto)]

mod asked;
mod check;
mod fault;
mod few;
mod groups;
mod seat;
mod texts;
mod triggered;
mod uses;

pub use check::check_dependencies;
