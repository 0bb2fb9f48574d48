//! The guides of each setup that is built are accepted: each is without fault and has numbered slots.
#![tactic(auto)]

mod accepted;

pub use accepted::guides_are_accepted;
