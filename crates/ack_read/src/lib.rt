//! What a partner's acknowledgments report, read from their text: of each interchange that is answered (TA1), of each set and of each group
//! of its 999s, each where it is, with all that is reported of segments and elements. Everything is lent from the text, as written.
//!
//! Proved:
//! - `read_acknowledgments` gives all that a text reports, in its order, each once, and takes any bytes;
//! - the sets that it gives are the responses of the text, and the interchanges its TA1s, as the contract of a night says what is read
//!   back (`responses_in`, `ta1s_in`);
//! - it refuses just a text that doesn't begin with a header, and one that reports nothing;
//! - `read_by` reads any text so, by delimiters that it is given, and refuses none;
//! - `ack_kind` says by a segment's id what it reports.
//!
//! Source: X12.5, interchange control header, TA1; 999 guide (005010X231), AK1, AK2, IK3, IK4, IK5 and AK9.
//!
//! Tests: `trial_explain`, `trial_nights`.
#![tactic(auto)]

mod fault;
mod kind;
mod parts;
mod read;
mod standing;
mod told;

pub use fault::ReadFault;
pub use kind::{AckKind, ack_kind};
pub use read::{read_acknowledgments, read_by};
pub use told::{ElementTold, GroupTold, NoteTold, SegmentTold, SetTold, Ta1Told, Told};
