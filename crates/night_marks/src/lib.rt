//! Nights by their names and moments: in which order they went on from one another, and which don't name the night before them.
//!
//! Proved:
//! - the order is the one of the definition: each night is followed by the first that names it as the one before it, or else by the
//!   earliest that is left (`in_order`);
//! - the nights that don't name the one before them are known exactly (`broken_links`);
//! - the nights that aren't archived, and the entries of archived ones, are known exactly (`unarchived`, `archived`), and how many nights
//!   there are, archived nights included (`night_count`).
//!
//! The cost of the order grows with the square of the number of nights, in comparisons of names.
//!
//! Source: own.
#![tactic(auto)]

mod bad;
mod count;
mod link;
mod mark;
mod order;

pub use bad::{BadFile, FileState, NightFile};
pub use count::{archived, archived_count, night_count, number_in, unarchived};
pub use link::{BrokenLink, broken_links};
pub use mark::NightMark;
pub use order::in_order;
