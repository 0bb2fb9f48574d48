//! The files of a night's folder, byte for byte, and what the two tables of a hub say after the night.
//!
//! Proved:
//! - `kept_files` gives the files that the night was made of, the files that mark it, the files that it gave, its sums, its status and its
//!   record, in this order and with the bytes of the definition. The record names the SHA-256 of each file that the night was made of,
//!   and of each file that it gave. The function refuses a night only if a part of that record can't be, and names such a part;
//! - `taken_of` gives the interchanges of which a set was delivered. Each key that was delivered has its interchange there
//!   (`taken_has_each`), with the elements of the interchange's header (`taken_has_header`);
//! - `next_addresses` gives each address that an older table or tonight's has, once and in the order of bytes. Its numbers are
//!   tonight's, or the older ones if tonight has none. It refuses a table only if it would have a number that can't be.
//!
//! Source: X12.5, ISA05 to ISA08 and ISA13; X12.6, GS06 and ST02; FIPS 180-4. What is in a night's folder is own.
#![tactic(auto)]

mod addresses;
mod ends;
mod heading;
mod kept;
mod laws;
mod marks;
mod night;
mod sums;
mod taken;

pub use addresses::next_addresses;
pub use heading::Heading;
pub use kept::kept_files;
pub use laws::{taken_has_each, taken_has_header};
pub use taken::taken_of;
