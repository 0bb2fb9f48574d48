//! The definition of a night and the layers say the same of headers and of segments. The lemmas on extents and envelopes serve
//! `night_equal_text`.
#![tactic(auto)]

mod laws;

pub use laws::{heads_are_one, segments_are_one};
