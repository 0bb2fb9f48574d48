//! The definition of a night and the layers find the same structural faults in a body, by a guide without fault: segments and loops
//! used too often or too seldom, and segments that have no place.
#![tactic(auto)]

mod laws;

pub use laws::{structures_are_one, use_faults_are_one};
