//! The index of a text's interchanges: where each starts and ends, and its envelopes, that is its
//! functional groups and their transaction sets, each with its header, its trailer and its counts.
//! Nothing of the text is copied; the index holds places in it.
//!
//! Proved:
//! - `read_interchange` answers an interchange exactly where a header begins at the offset; its end
//!   is that of the definition, and its groups, sets, their ends, counts and acknowledgments are those
//!   of the one tree of envelopes that its segments derive;
//! - `index_plain` answers the index of a text: its one chain of interchanges, each with its envelopes and the least of
//!   its faults 1 to 7, and the count of bytes outside; a text has one index (`index_is_one`);
//! - `index_of` answers the same interchanges from the headers and the marks of the text's pieces, before they are judged: marks
//!   under another pair, or none, do no harm. Settled with what `judge` answers for each, that is what `index_plain`
//!   answers (`judged_is_index`);
//! - `index_by_threads` answers the same by several threads;
//! - `judge` answers the least of the faults 1 to 7 of an interchange of an index, `judge_interchange` that of any, and none
//!   exactly where it has none;
//! - `Index::settle` gives each interchange of an index the fault that is handed in for it, and leaves all else;
//! - `Index::places` lists the places of the interchanges without a fault, of their groups and of their sets; settled
//!   with the least of the faults 1 to 8 they are the index places by which numbers are compared (`places_are_index_places`);
//! - the segments of each interchange derive a tree (`envelope_is_there`), and only one
//!   (`envelope_is_one`); a text has one chain of interchanges at most (`chain_is_one`);
//! - of a segment nothing but its kind is asked (`envelope_is_of_kinds`), so a tree goes over to segments
//!   that are held in another way, and back (`envelope_is_mapped`);
//! - an interchange ends at the least of three offsets (`end_is_least`), and holds its header;
//! - each set of an interchange can be read alone in its span of the text (`sets_stand_alone`), and
//!   the span that the index gives of it (`SetEnvelope::span`) is a set's;
//! - `group_elements` gives GS01, GS06 and GS08 of a group's header, and `GroupEnvelope::set_header` the ST of a set.
//!
//! X12.5, interchange control header (ISA) and trailer (IEA), interchange acknowledgment (TA1);
//! X12.6, functional group header (GS) and trailer (GE), transaction set header (ST) and trailer
//! (SE).
//!
//! As its trial, the crate `trial_texts`, calls it:
//!
//! ```rust
//! match read_interchange(alloc, text, start)? {
//!     None => Err("no header".into()),
//!     Some(found) => Ok(found),
//! }
//! ```
#![tactic(auto)]

mod builder;
mod by_marks;
mod by_threads;
mod entry;
mod envelopes;
mod faults;
mod header_elements;
mod index;
mod interchange;
mod judging;
mod known;
mod laws;
mod mark_parts;
mod next;
mod placed;
mod places;
mod plain;
mod read;
mod segment_at;
mod settle;
mod share;
mod source;
mod walk;

pub use by_marks::index_of;
pub use by_threads::index_by_threads;
pub use entry::SetEnvelope;
pub use faults::judge_interchange;
pub use header_elements::{GroupElements, group_elements};
pub use index::{Index, IndexedInterchange};
pub use interchange::{GroupEnvelope, Interchange};
pub use judging::judge;
pub use laws::{
    chain_is_one, end_is_least, envelope_is_mapped, envelope_is_of_kinds, envelope_is_one,
    envelope_is_there, index_is_one, judged_is_index, places_are_index_places, sets_stand_alone,
};
pub use plain::index_plain;
pub use read::read_interchange;
