//! The segments of an X12 text and their data elements, lent from the text: nothing is copied and
//! nothing allocated. A text is divided at each terminator, CR and LF before a segment are
//! passed over, empty parts give no segment, and what follows the last terminator is the rest.
//!
//! Proved:
//! - `segments` gives exactly the segments of the text, in order, each with its offset, and no more
//!   of them than there are bytes;
//! - `next_part` gives the first segment from an offset on, and where there is none the rest;
//! - id, elements, occurrences and components are exactly the texts between the separators, one by
//!   one and by number; one that isn't there is the empty text;
//! - a run of segments, cut out of its text, reads as the same run;
//! - `kind_of` finds a segment's kind by its id, and a span of the text lends just its segments;
//! - `find_byte` and `find_near` give the first place of a byte, or none where it isn't.
//!
//! X12.6, data segment, data element and their separators, control segments, transaction set; X12.5,
//! interchange control segments.
//!
//! As its trial, the crate `trial_texts`, calls it:
//!
//! ```rust
//! const DIVIDED: &[u8] = b"A*1^2>3**4~";
//! ...
//! fn first_segment(text: &[u8]) -> Option<SegView<'_>> {
//!     segments(text, DELIMS).next()
//! }
//! ...
//! let Some(segment) = first_segment(DIVIDED) else {
//!     return Err("no segment".into());
//! };
//! same(rt.alloc(), segment.occurrence(1, 2), b"2>3")?;
//! ```
#![tactic(auto)]

mod divide;
mod find;
mod kind;
mod lend;
mod line_ends;
mod part;
mod parts;
mod runs;
mod scan;
mod segs;
mod set_span;
mod view;

pub use divide::{components, occurrences};
pub use find::{find_byte, find_near};
pub use kind::{Kind, kind_of};
pub use lend::segments;
pub use line_ends::lead;
pub use part::Part;
pub use parts::Parts;
pub use runs::runs_stand_alone;
pub use scan::next_part;
pub use segs::Segments;
pub use set_span::SetSpan;
pub use view::SegView;
