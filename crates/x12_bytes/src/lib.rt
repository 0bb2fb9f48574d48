//! The header of an X12 interchange, read in place: sixteen fields of fixed width, and the
//! delimiters that everything after the header is divided by. Nothing is copied and nothing
//! allocated; a `Header` lends its bytes from the text.
//!
//! Proved:
//! - `read_header` finds a header exactly where one begins, and lends exactly its 106 bytes; so does
//!   `header_there`, without a test, where one is known to begin;
//! - `separator_place` and `width_of` are where each field's separator is, and how wide the field is;
//! - each field is the bytes after its separator, and holds neither the separator nor the
//!   terminator;
//! - the delimiters are those that the header names, ISA11 only where it can separate;
//! - an id is read without exactly the spaces at its end.
//!
//! X12.5, interchange control header (ISA).
//!
//! As its trial, the crate `trial_texts`, calls it:
//!
//! ```rust
//! fn has_delims(text: &[u8], delims: Delims) -> bool {
//!     match read_header(text, 0) {
//!         None => false,
//!         Some(header) => header.delims() == delims,
//!     }
//! }
//! ```
#![tactic(auto)]

mod bytes;
mod delims;
mod header;
mod layout;
mod pair;
mod piece;
mod read;
mod spaces;

pub use delims::Delims;
pub use header::Header;
pub use layout::{HEADER_LEN, separator_place, width_of};
pub use pair::Pair;
pub use piece::Piece;
pub use read::{head_is_tested, header_there, read_header};
pub use spaces::without_trailing_spaces;
