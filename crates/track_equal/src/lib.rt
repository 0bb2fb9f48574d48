//! The table of where each set of a night is: `tracks_are_one` proves that what the layers describe (`IsTrack`) is the table of the
//! definition (`table_of`), byte for byte, and that it is said to be clean exactly if the definition's report is.
//!
//! Source: RFC 4180; X12.5, interchange; X12.6, functional group and transaction set; which rows there are is own.
#![tactic(auto)]

mod laws;

pub use laws::tracks_are_one;
