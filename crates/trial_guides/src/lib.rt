//! Trials of `guide_tree`, `guide_toml`, `elem_rules` and `loop_match`: guides made row by row and guide files, each beside its
//! first fault; what the house guides read as; the faults of worked segments by guides of one slot, and moments; bodies under
//! small guides, each beside the places of its segments or its structural faults. The house guides are lent to other trials.
//!
//! Nothing is proved here but that the trials are safe and end. A segment's faults are written as
//! `element component repetition code reference copy;`, a body's as `position id(loop) code slot;`, a placed segment as
//! `slot:child.use/child.use;`, a stray as `-;`.
#![tactic(auto)]

#[cfg(test)]
mod bodies;
#[cfg(test)]
mod checks;
#[cfg(test)]
mod composites;
#[cfg(test)]
mod conditions;
#[cfg(test)]
mod files;
pub mod house;
#[cfg(test)]
mod house_guides;
#[cfg(test)]
mod long;
#[cfg(test)]
mod moments;
#[cfg(test)]
mod places;
#[cfg(test)]
mod placings;
#[cfg(test)]
mod rows;
#[cfg(test)]
mod segments;
#[cfg(test)]
mod sizes;
#[cfg(test)]
mod slots;
#[cfg(test)]
mod texts;
#[cfg(test)]
mod values;
