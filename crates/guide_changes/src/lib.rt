//! How the guides of a hub differ from those of a night that it made, in lines.
//!
//! Proved: `guide_changes` gives just the lines of the definition, in the order of the names. A guide whose file has the same bytes has no
//! line. Of one that has changed the lines are those of `nighthub_diff`, if both files are guides; otherwise one line says why they can't
//! be compared. A guide that the night had no file of is new, and one that the hub has no file of is gone.
//!
//! Only tested: that the system opens the file that it is asked for, and that the names of a folder are all of them.
//!
//! Source: own.
//!
//! Tests: `.ci/hub`.
#![tactic(auto)]

mod changed;
mod changes;
mod gone;

pub use changes::guide_changes;
