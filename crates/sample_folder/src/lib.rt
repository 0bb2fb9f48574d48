//! A folder of sample files: what a file is called by its number, and how a file is put there.
//!
//! Proved:
//! - `file_name` gives the name of the definition: the number from 1, in four digits or more, and `.x12`;
//! - `put` adds just the file, with just these bytes, or fails and names the file, unless memory was refused.
//!
//! Source: own.
//!
//! Tests: `.ci/samples`, `.ci/diff`.
#![tactic(auto)]

mod folder;
mod name;

pub use folder::{NotPut, put};
pub use name::file_name;
