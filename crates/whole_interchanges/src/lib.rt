//! Up to where the interchanges are whole in what is read of a text: an interchange is whole once its end can't change any more, whatever
//! bytes follow. An open interchange is followed from where it was left, so that no segment is looked at twice. Theorems, with nothing to
//! run, say how the interchanges of a text continue if it is read in batches: what may still begin with a header is reported exactly, a
//! batch read as a separate text has just the interchanges that the whole text has there, and batches indexed one by one make the index of
//! the whole text.
//!
//! Proved:
//! - `may_begin` is the test of whether a header may still turn out to begin at an offset, by bytes that aren't read yet;
//! - `advance` continues until no interchange that is whole is left: the interchanges up to there are those of the text, whatever
//!   follows, and after it no header is read, or the end of its interchange isn't known; `advance_by` gives the same, by threads;
//! - `forget` says the same of what is left after the bytes before are dropped;
//! - a header that isn't read at an offset, and of which none may begin there by what is read, is at no text that continues so
//!   (`header_shows_early`);
//! - where a header may begin by what is read of a text, there are bytes with which the text continues to one
//!   (`begun_headers_can_be_completed`);
//! - interchanges that are whole by what is read are those of each text that continues so; up to where none is open, they are those of
//!   the front of the text, read alone; and those after it join on (`whole_stays_whole`);
//! - the indexes of batches, moved by the bytes before them, are the index of the whole text (`batches_are_the_index`).
//!
//! Source: X12.5, interchange control header and trailer, and interchange. When an interchange is worked on, and that a text is read in
//! batches, are own.
//!
//! Tests: `trial_streams`.
#![tactic(auto)]

mod begin;
mod blocks;
mod following;
mod header_laws;
mod laws;
mod layout;
mod passing;
mod scout;
mod seeking;

pub use begin::may_begin;
pub use following::OpenPart;
pub use header_laws::begun_headers_can_be_completed;
pub use laws::{batches_are_the_index, header_shows_early, whole_stays_whole};
pub use scout::{Advanced, Inside, Scout, advance, advance_by, forget};
