//! Texts that the hub sends: segments as they are written, and around them functional groups and interchanges, all
//! with the receiver's delimiters, with no byte between segments and without the empty elements at a segment's end.
//! An acknowledgment, and whatever else is sent, is composed of these texts.
//!
//! Proved:
//! - each call appends exactly the text of its definition, and keeps what was there before, also where memory is
//!   refused;
//! - `append_header` writes a header of fixed width, and what begins with it is read again as a header, with these
//!   delimiters and with these elements as its fields, whatever is after it, where the envelope is fit to be sent
//!   (`IsSendable`) and the number has at most nine digits;
//! - an `OutboundHeader` is the header of an envelope and a moment, all but its number: made once, and written with any number the
//!   same as by `append_header`, without a look at the envelope;
//! - `append_group` writes a group whose header and trailer have one number; `append_group_header` and
//!   `append_group_trailer` are its ends;
//! - `append_trailer` writes the number of groups and the interchange's number in nine digits;
//! - `append_segment` leaves off exactly the empty elements at the end; `append_coded_segment` does the same of
//!   elements after which codes are;
//! - a `PaddedNumber` is the number in decimal, with leading zeros up to a width; `PaddedNumber::of_set` is a set's;
//! - `is_delimiter` recognizes the bytes that divide a text.
//!
//! Source: X12.5, interchange control header and trailer; X12.6, functional group header and trailer, segment.
//!
//! Tests: `trial_nights`, `trial_texts`.
#![tactic(auto)]

mod delimiter;
mod envelope;
mod front;
mod group;
mod header;
mod number;
mod outbound;
mod segment;
mod tail;
mod trailer;

pub use delimiter::is_delimiter;
pub use envelope::Envelope;
pub use group::{GroupHeader, append_group, append_group_header, append_group_trailer};
pub use header::append_header;
pub use number::PaddedNumber;
pub use outbound::OutboundHeader;
pub use segment::{append_coded_segment, append_end, append_segment, append_used};
pub use trailer::append_trailer;
