//! What is kept of a night, read from the bytes of its files.
//!
//! Proved, of an entry that is given:
//! - its moment is what the file of the moment says (`entry_of`);
//! - it has a row for each partner of the setup that was read, with the partner's qualifier and id, and the numbers that the counters of
//!   the night and those that it left have under the partner's name;
//! - it has the key of each row of the table that says delivered, in their order: ISA05 to ISA08 and ISA13 at the row's offset in the
//!   input, the row's GS06 and ST02, and the address of its receiver;
//! - it has the keys of the sets that the night was asked for again, in the order of their table; none if the table is empty;
//! - it has a file for each name that the night gives, that its sums list or that was found, with what is listed and the sum found;
//! - sums that are read are written as the bytes that they were read from (`read_sums`); the sum of bytes is their SHA-256 (`sum_of`).
//!
//! Not claimed: which files are refused as unreadable.
//!
//! Source: own; X12.5, interchange control header; RFC 4180; FIPS 180-4.
#![tactic(auto)]

mod again;
mod entry;
mod fault;
mod files;
mod key;
mod named;
mod rows;
mod sums;
mod table;

pub use entry::{Papers, entry_of};
pub use fault::{EntryFault, Paper};
pub use files::NamedSum;
pub use sums::{read_sums, sum_of};
