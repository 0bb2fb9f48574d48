//! The register of control numbers: which places of a settled index were recorded, in whatever order they came, and
//! after them the first use of each place's number. A book has the numbers that can be compared with one another, by
//! position: one for the interchanges of the text, one for the groups of each interchange, one for the sets of each group
//! (`Books`). While numbers rise with their places, as they mostly do, a record costs a look at its neighbours.
//! Threads share a register's lock; a place's number is read before the lock is taken.
//!
//! Keys by position, as control numbers by their places: for each whether an earlier position has an equal
//! one, in whatever order the keys come. While keys rise with their positions they are only kept, and a new
//! one is compared with its near neighbours; from the first that doesn't rise, or whose neighbours are far,
//! the first position of each key is kept in an ordered map: so n keys cost n log n at most, and those that
//! rise cost little more than their places.
//!
//! Proved:
//! - `Records::record` adds exactly the place, at the end; it answers `Already` exactly where the place was recorded
//!   before, and leaves the records as they were where it refuses;
//! - `Records::finish` answers Ok exactly where each place of the index is recorded, and hands the records back where
//!   one is missing;
//! - `finish_all` makes records whole: it records what is missing, and gives those of the same index;
//! - `FullRegister::recorded` are the places of the index, each once, in the order of recording;
//! - `FullRegister::earlier_of` answers the first use of a place's number where that is an earlier place (`IsFirstUse`),
//!   and none where there isn't such a place, whatever was recorded first;
//! - `Seen` keeps the numbers of the interchanges of batch after batch: `add` adds exactly those of the interchange places of an
//!   index, or leaves what was seen as it was where memory is refused; `holds` answers whether an interchange's number was seen;
//! - for every interleaving of the threads, whenever the lock is free the records are of the index that the register's
//!   type names, and the ledger's book is their count; a `Recorded` names its place, and a fresh one raises the caller's
//!   share by one; so `Register::open` gives as many records as the shares add up to.
//!
//! Proved, for keys of any type with a total order (`Ord`'s laws are asked, and nothing else of it):
//! - `Book::add` puts a key at a position that has none, and leaves the book as it was where memory is
//!   refused;
//! - `Book::earlier` answers the first position before the one asked about whose key is equal to its own,
//!   and none where there isn't such a position (`first_of`, `where_before`), whatever came first;
//! - `Books` is a list of books, of which a call changes one.
//!
//! X12.5, interchange control number (ISA13) with sender and receiver (ISA05 to ISA08); X12.6, group control number
//! (GS06) and transaction set control number (ST02). That numbers are reported by first use is own. That a thread gets on
//! isn't claimed, nor that `record_locked` ever answers a fresh one: the trial sees that it does.
//!
//! As its trial, the crate `trial_workers`, calls it:
//!
//! ```rust
//! let mut records = Records::new(alloc, &index)?;
//! assert_eq!(rt; records.record(place), Ok(()));
//! assert_eq!(rt; records.record(place), Err(RecordFault::Already));
//! ```
//!
//! And a book by itself:
//!
//! ```rust
//! let mut book = Book::new(rt.alloc(), count)?;
//! for k in 0..count {
//!     let at = count - 1 - k;
//!     if at < book.len() && !book.holds(at) {
//!         book.add(at, (at / 2) as u64)?;
//!     }
//! }
//! ...
//! assert_eq!(rt; (book.earlier(199_998), book.earlier(199_999)), (None, Some(199_998)));
//! ```
#![tactic(auto)]

mod book;
mod books;
mod fault;
mod full;
mod interchange_key;
mod key;
mod least;
mod making;
mod reading;
mod records;
mod register;
mod seen;
mod whole;

pub use book::Book;
pub use fault::RecordFault;
pub use full::{FullRegister, Short};
pub use interchange_key::{KEY_LEN, number_key};
pub use records::Records;
pub use register::{Named, RecordLock, Recorded, Register, Share};
pub use seen::Seen;
pub use whole::finish_all;
