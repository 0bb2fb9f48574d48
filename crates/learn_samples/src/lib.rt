//! The sets of sample files, from which a guide is learned.
//!
//! Proved: it is safe on every text, and ends. That it gives each set isn't proved: what is learned from the sets is judged by the files
//! again (`learn_judge`).
//!
//! Source: X12.5, interchange; X12.6, functional groups and transaction sets.
#![tactic(auto)]

mod sample;

pub use sample::{LeftOut, Sample, Samples, add_sets};
