//! The other way round: `tables_are_tracks` proves that the definition's table of a text is what the layers describe (`IsTrack`), by a
//! setup of accepted guides. So nothing that was promised by the layers is lost where a program promises the definition's table.
//!
//! Source: RFC 4180; X12.5, interchange; X12.6, functional group and transaction set; which rows there are is own.
#![tactic(auto)]

mod laws;

pub use laws::tables_are_tracks;
