//! Rules of data elements: what is wrong with the elements of a segment, by the rows and conditions that a guide has for
//! it. Nothing here looks at more than one segment.
//!
//! Proved:
//! - `check_segment` gives exactly the faults of a segment's elements: each fault of the definition and no other, each
//!   once, rising by element, component, repetition and code, for any bytes, delimiters and number of elements. A fault
//!   shows the reference number of the row at its place and, whole, the text that its code speaks of;
//! - `check_segment_at` gives the same faults of a segment without an odd byte, whose element separators were found before;
//! - `is_clean_flat` says of a segment whose element separators were found before that it is clean only if it has no fault. It
//!   goes by the rows and conditions of the slot as few numbers, which `SlotTables` has for each slot of a guide. Of a value
//!   that a flat row is sure of the row finds no fault, and where all masks say so all conditions hold. A value of which
//!   nothing is said is judged by the row itself;
//! - `is_empty` and `reference_at`, by which crates above speak of elements: whether a text counts as empty, and the reference
//!   number of the row at a position.
//!
//! The moment of a run, `At`, is given on from `moment`, by whose calendar dates and times are judged.
//!
//! A segment is walked a fixed number of times, whatever its rows and conditions; memory is taken for the texts of the
//! elements that have rows, for the positions at which one condition is broken and for the faults alone. A segment without
//! separators in its elements and without faults is seen to be clean in one walk, which takes no memory. A flat row takes 16
//! bytes, a flat condition 24, a code of at most 32 of a row 4; the tables are built in one walk over the guide. Where conditions
//! are broken at one element, however many, one fault is made for each code.
//!
//! Source: X12.6, data element types, composite and repeated data elements, relational conditions; the 999 guide
//! (005010X231), IK4. What counts as empty is own.
//!
//! As its trial, the crate `trial_guides`, calls it:
//!
//! ```rust
//! let Some(slot) = guide.slot(1) else {
//!     return Err("a guide without a slot".into());
//! };
//! let found = check_segment(alloc, &SegView::new(0, segment, delims), slot)?;
//! ```
#![tactic(auto)]

mod broken;
mod check;
mod clean;
mod conditions;
mod divided;
mod element;
mod exact;
mod findings;
mod flat_condition;
mod flat_row;
mod flat_slot;
mod form;
mod marked;
mod occurrence;
mod presence;
mod slot_tables;
mod value;

pub use check::check_segment;
pub use conditions::reference_at;
pub use divided::is_empty;
pub use exact::check_segment_at;
pub use flat_condition::FlatCondition;
pub use flat_row::{FlatKind, FlatRow, code_number, packed};
pub use flat_slot::{FlatSlot, is_clean_flat};
pub use moment::At;
pub use slot_tables::SlotTables;
