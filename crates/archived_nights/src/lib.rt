//! Nights that are archived as one: the entry of all of them together, the files that say it, and what is read of these files.
//!
//! Proved:
//! - the entry that `archive_of` makes of nights has the key of each set that they delivered and no other; of each address that one of
//!   them knows it has the numbers that the last such night left, and of no other address (`IsArchiveOf`);
//! - later nights continue after this entry exactly if they continue after these nights: nothing is forgotten, nothing is invented
//!   (`archive_goes_on`);
//! - `archive_files` gives just the files of the definition: the tables of the sets and of the addresses, their SHA-256, the moment and
//!   the record of the last of these nights, and the file `done`;
//! - what `read_archive` gives is an entry of the bytes that it was given, whose sums are those that are listed. It names a file only if
//!   that one isn't what it must be;
//! - what is read of the files that were written is the entry that was made (`archive_reads_back`).
//!
//! Only tested: that the key of a set and the address of a partner can always be written down. `archive_of` compares each with what will
//! be read, and refuses otherwise.
//!
//! Source: own; RFC 4180; FIPS 180-4 (SHA-256).
#![tactic(auto)]

mod archive;
mod fault;
mod files;
mod keys;
mod laws;
mod left;
mod read;
mod sums;

pub use archive::{Archive, archive_of};
pub use fault::{ArchiveFault, ArchiveFile, MakeFault};
pub use files::archive_files;
pub use laws::{archive_goes_on, archive_reads_back};
pub use read::{ArchivePapers, read_archive};
