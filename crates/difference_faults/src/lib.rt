//! Which fault of a set shows a difference of two guides: it is one that the difference makes, and is where the guides differ.
//!
//! Proved:
//! - `part_of` gives what of the guides a difference is of: a segment or a loop by its id, the dependency, the condition or the pair of
//!   levels that the difference writes (`IsPart`);
//! - `shows` answers just what the definition says: by what the difference is of, the code of the fault, its slot, its element and
//!   component, and the code that is gone.
//!
//! Source: the 999 guide (005010X231), IK3 and IK4; own.
#![tactic(auto)]

mod codes;
mod part;
mod shown;

pub use codes::{is_element_code, is_segment_code};
pub use part::{Part, is_gone, part_of};
pub use shown::shows;
