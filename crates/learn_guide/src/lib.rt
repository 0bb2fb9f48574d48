//! A guide out of sample sets: a proposal, of which nothing is believed. Who calls this reads the text as a guide file and judges each set
//! by it before anything is printed.
//!
//! Proved: it is safe on all sets, and ends. All else is a proposal: one order of the ids that all sets follow, loops begun by the usual
//! heads, how often each segment and loop was seen, and for each element its use, type, lengths and codes: those of the guides that are
//! known, widened to the values that were seen, or else a guess by the values. Where two sets have their segments in two orders, or a set
//! has what no guide can say, there is no proposal, and the cause is given with its place.
//!
//! Its time is n log n in the bytes of the sets.
//!
//! Source: own. Heads of loops: X12 850, 855, 856, 860, 810 and 846.
#![tactic(auto)]

mod cause;
mod columns;
mod heads;
mod known;
mod learning;
mod order;
mod rows;
mod tree;
mod types;
mod walk;
mod write;

pub use learning::{Proposal, propose};
