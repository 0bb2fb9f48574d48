//! The definition of a night and the layers say the same of a guide file: which guide its table, and its bytes, write.
#![tactic(auto)]

mod laws;

pub use laws::{guide_bytes_are_one, guide_files_are_one};
