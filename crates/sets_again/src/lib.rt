//! The sets of a night that go in again, as an input: those that were held for want of a route, or that were rejected.
//!
//! Proved:
//! - what `sets_again` gives for an input and the rows of its table is the text of the definition: interchange by interchange that has such
//!   a set, the 106 bytes of its header; then each group that has such a set, with its GS segment, the bytes of the sets as they stand in
//!   the input, and GE with their count and GS06; then IEA with the count of these groups and ISA13; each with the interchange's own
//!   delimiters;
//! - the rows fit the input: an interchange that is refused has one row, and each other one has rows for just its sets, by GS06 and ST02,
//!   in their order. The call refuses only rows that don't fit, and an input that is too long;
//! - a line feed follows the last IEA, and the text isn't the input itself.
//!
//! It takes as much work as the input and the rows have bytes.
//!
//! Source: X12.5, interchange; X12.6, functional group and transaction set. Which sets go in again is own.
//!
//! Tests: `.ci/find`.
#![tactic(auto)]

mod again;
mod fault;
mod fits;
mod rows;
mod text;
mod wanted;

pub use again::sets_again;
pub use fault::AgainFault;
pub use wanted::Wanted;
