//! Where interchange headers begin in a piece of a text. A header may end after its piece, so each piece can be looked at by
//! itself, and each header of the text begins in just one of them.
//!
//! Proved:
//! - `scan_piece` gives exactly the headers that begin in the piece, rising, each with the element separator and the segment
//!   terminator that it names;
//! - `PieceHeads::append` puts the headers of the next piece to those of a piece.
//!
//! X12.5, interchange control header (ISA).
//!
//! Tests: `trial_workers`.
#![tactic(auto)]

mod heads;
mod scan;

pub use heads::{HeadAt, PieceHeads};
pub use scan::scan_piece;
