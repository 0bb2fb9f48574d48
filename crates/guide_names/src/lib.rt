//! The words for a guide: the names of its segments, elements and codes, and notes, read from a names file. A guide has none of them, and
//! they decide nothing.
//!
//! Proved:
//! - what is looked up is the text that the file's table has under the key, and none if it has none there (`Names`);
//! - a file is read exactly if it is a TOML table whose keys and values are those of a names file; the first key that isn't, in the order
//!   of bytes, is refused with the tables that it is in, and its cause (`read_names`);
//! - `Names::subjects` lists what the file names, each once for each of its keys.
//!
//! A look-up takes as many steps as the logarithm of the table's size.
//!
//! Source: own; what a file's table has is said by `toml`.
//!
//! Tests: `.ci/samples`.
#![tactic(auto)]

mod fault;
mod lookup;
mod names;
mod read;
mod refused;
mod subjects;

pub use fault::{Cause, NamesFault, Refused};
pub use names::Names;
pub use read::read_names;
pub use subjects::{code_subject, element_subject, label_subject, segment_subject};
