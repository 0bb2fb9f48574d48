//! Where a text is cut into pieces: any offsets that rise and lie in the text, also in the middle of a segment or a header,
//! twice the same, at its front or at its end.
//!
//! Proved:
//! - `Cuts::new` takes exactly the lists of places that rise and of which none lies after the text's end, and says of
//!   the others which of both they miss, rising first; only memory may be wanted besides;
//! - `Cuts::every` cuts at the multiples of a number that lie strictly between 0 and the text's end;
//! - there is one piece more than there are cuts, and `Cuts::piece` gives each of them, in its order and in the text;
//! - the pieces, one after another, are the text (`pieces_are_the_text`).
//!
//! Source: own.
//!
//! Tests: `trial_nights`.
#![tactic(auto)]

mod cut_fault;
mod cuts;
mod laws;
mod places;

pub use cut_fault::CutFault;
pub use cuts::Cuts;
pub use laws::pieces_are_the_text;
