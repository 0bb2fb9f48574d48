//! Trials of whole sets, of their compiled guides, and of their segments.
//!
//! Trials of `set_check`: transaction sets of an interchange, each beside its faults and its codes by a small guide, or by none.
//!
//! Trials of `guide_fast` and `marked_segments`: where segments begin by the compiled house guide of orders, what is reported of those
//! without a place, how many nodes are needed, slots of one id that picks tell apart, the places of an order's segments, their turns by
//! the number of any slot, and the segments of texts of all lengths with the places of their element separators.
//!
//! Nothing is proved here but that the trials are safe and end. A fault is written as `position id(loop) code slot;`, one of an
//! element with `element.component.repetition code reference copy` before the semicolon; after the faults the set's codes, each
//! with a space before it, and a line end. Positions count from ST, which is 1. Whole groups are beside the 999 that answers them.
#![tactic(auto)]

#[cfg(test)]
mod answers;
#[cfg(test)]
mod compiled;
#[cfg(test)]
mod elements;
#[cfg(test)]
mod envelopes;
#[cfg(test)]
mod guides;
#[cfg(test)]
mod picks;
#[cfg(test)]
mod places;
#[cfg(test)]
mod rules;
#[cfg(test)]
mod segments;
#[cfg(test)]
mod sets;
#[cfg(test)]
mod structure;
#[cfg(test)]
mod turns;
