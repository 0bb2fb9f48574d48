//! The theorems of guides: what the placing of a set's segments and its structural faults say of the grammar by which a
//! set meets a guide, and that the computed forms of places, placing and faults are those of the relations. The
//! definitions are in `guide_tree`; here they are joined, for the crates that check sets. Nothing here runs.
//!
//! Proved:
//! - `placing_is_grammar`: in a guide without fault a body is derived by the grammar exactly where its placing has no
//!   stray and no structural fault, and both give each segment the same slot; a derived body has a placing, a body has
//!   no two, and in each placing the uses of a child are numbered without gaps;
//! - `placing_is_computed`: in a guide without fault the candidates that are computed are exactly the places that may
//!   follow and lead to a slot; the computed placing is the one placing; the pass over it meets exactly its structural
//!   faults, and none exactly where the body is derived; two faults of one place in their order are one.
//!
//! Source: X12.6, transaction sets, loops and segments; the 999 guide (005010X231), IK304.
//!
//! Tests: `trial_guides`, `trial_nights`, `trial_sets`.
#![tactic(auto)]

mod law;

pub use law::{placing_is_computed, placing_is_grammar};
