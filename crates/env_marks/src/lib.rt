//! What the pieces of a text say of its segments and headers, and how the values of neighbouring pieces are joined to the value
//! of both, so that pieces can be looked at apart and in any order. A segment, an id or CR LF may lie across a cut.
//!
//! Proved:
//! - `marks_of` says of a piece, under an element separator and a segment terminator, where the segments between its
//!   first terminator and its last start and end and where their ids end, and what of a segment is before and after;
//! - the value of an empty piece is a unit, joining is associative, and the values of two neighbours join to that of both
//!   (`PieceLaws`), for marks under any pair, for headers, and for each further `Piecewise`;
//! - `gather` makes of the values of all pieces, however a list was cut, the value of the whole list;
//! - `guess` gives the pair of the last header that begins at or before a piece's start, else that of the first in the piece,
//!   and none exactly where there is neither.
//!
//! X12.6, data segment, segment terminator and element separator; X12.5, interchange control header (ISA).
//!
//! Tests: `trial_texts`, `trial_workers`.
#![tactic(auto)]

mod frag;
mod gathering;
mod guessing;
mod heads;
mod lex;
mod marks;
mod piecewise;

pub use frag::{Frag, Mark};
pub use gathering::gather;
pub use guessing::guess;
pub use lex::marks_of;
pub use marks::Marks;
pub use piecewise::Piecewise;
