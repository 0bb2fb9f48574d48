//! The files of a day, from what was read of each to one input: which of them go in, and why the others are set aside.
//!
//! Proved:
//! - a file is gathered by itself, as `gather_files` says of its bytes; nothing goes in of one that changed while it was read, or whose
//!   name isn't UTF-8 (`gather`);
//! - the input is what goes in of the files that are taken and have no set that an older night delivered, one after another in their
//!   order; a night reads it as it reads each of these files alone (`join`);
//! - each file has a line, which says what of it goes in and where, or why nothing does (`join`);
//! - the list of the files has the SHA-256 of each whose bytes were read, and marks those that are asked for again (`listing_of`);
//! - the table of what is asked for again has just the sets that the files which are asked for again deliver (`again_table`); what is read
//!   of it are the keys of these sets (`again_has_key`).
//!
//! Source: own; X12.5, interchange; FIPS 180-4.
#![tactic(auto)]

mod again;
mod file;
mod gathered;
mod joined;
mod laws;
mod lines;
mod listing;
mod member;

pub use again::again_table;
pub use file::{Content, DayFile};
pub use gathered::{DayFault, GatheredFile, gather};
pub use joined::{Joined, join};
pub use laws::again_has_key;
pub use listing::listing_of;
pub use member::{Member, OldSet, are_whole, some_goes_in};
