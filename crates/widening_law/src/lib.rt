//! A guide was changed: which sets the new guide takes. A theorem alone: its call does nothing.
//!
//! Proved: if the new guide is wider by `guide_widening`, each set that meets the old guide meets the new one
//! (`wider_guides_take_more`). It is proved rule by rule: the order of segments by induction over what a guide derives, then the
//! elements and conditions of each segment, the hierarchy, the dependencies and the convention.
//!
//! By the definition of a night it is the same, where both guides are accepted (`wider_guides_take_each_set`).
//!
//! A guide that is accepted is as wide as itself (`each_guide_is_as_wide`).
//!
//! Source: X12.6, transaction sets, segments and data elements; the 999 guide (005010X231), IK3 and IK4.
#![tactic(auto)]

mod law;

pub use law::{each_guide_is_as_wide, wider_guides_take_each_set, wider_guides_take_more};
