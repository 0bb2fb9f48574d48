//! The definition of a night and the layers say the same of the files of a setup: the setup that a setup file, a counters file and
//! guide files make, and the text of the next counters.
#![tactic(auto)]

mod laws;

pub use laws::{counters_texts_are_one, setup_bytes_are_one, setup_files_are_one};
