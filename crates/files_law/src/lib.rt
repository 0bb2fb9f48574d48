//! What a receiver reads in the files of a night: by X12.5 the interchanges of its acknowledgments and its mailbox, and by the table where
//! each set is. Interchanges that are written one after another are read again as just these, by the definition of the index. Theorems
//! alone: none of these calls does anything.
//!
//! Proved:
//! - interchanges that have all their trailers, under envelopes that can be sent, are read as just these: each starts where the one
//!   before ends, no byte is outside, and none has a fault 1 to 7, where no header begins at one of their segments
//!   (`written_interchanges_are_read`);
//! - none does at segments that begin otherwise than a header (`other_segments_are_clear`), nor where none begins at a segment that may
//!   be between ST and SE, as it is read (`segments_as_read_are_clear`);
//! - a text that is one of them has just one interchange, from its first byte to its last (`written_interchange_is_alone`);
//! - a partner's acknowledgments are just the interchanges that are written to it, one after another, with no byte outside of them and
//!   none of the faults 1 to 7, where the reference numbers of its guides can be quoted (`acknowledgments_are_read_as_interchanges`);
//! - so is a mailbox, where no segment between ST and SE begins at a header (`mailboxes_are_read_as_interchanges`);
//! - a text has one table by a setup and by named documents (`track_is_one`);
//! - the rows of a table are, one after another, those of its night: one for each interchange that is refused, and of each set of the
//!   others, in their order, one for each receiver of its route, in the order of the route, or one where nobody gets it; and no other
//!   (`rows_are_of_sets`);
//! - the rows that say `delivered` to a partner are, in their order, of the sets of its mailbox, each of which has one; and they name the
//!   ISA13, the GS06 and the ST02 under which a partner that reads its mailbox finds just these sets (`rows_name_what_is_found`,
//!   `sets_found_are_those`).
//!
//! Source: X12.5, interchange control header and trailer, interchange, and interchange control number (ISA13); X12.6, segment, functional
//! group and transaction set. Which rows there are is own.
#![tactic(auto)]

mod laws;
mod track_laws;
mod written_laws;

pub use laws::{acknowledgments_are_read_as_interchanges, mailboxes_are_read_as_interchanges};
pub use track_laws::{
    rows_are_of_sets, rows_name_what_is_found, sets_found_are_those, track_is_one,
};
pub use written_laws::{
    other_segments_are_clear, segments_as_read_are_clear, written_interchange_is_alone,
    written_interchanges_are_read,
};
