//! Breaches between nights in words: a line each, and a last line of totals.
//!
//! Proved: `report_text` gives just the text of the definition: a line for each file that isn't what a night leaves, for each night that
//! doesn't name the night before it and for each breach, in their order, and then how many nights, addresses and breaches there are. The
//! last line says `each goes on` exactly if there are none (`report_text`). `append_delivery` gives the words on a set that was delivered,
//! and `key_parts` the elements of a set's key.
//!
//! In each line bytes that control a terminal are escaped, so that it is one line whatever bytes a name has.
//!
//! Source: own; X12.5, interchange control header; X12.6, GS06 and ST02.
#![tactic(auto)]

mod breaches;
mod key;
mod others;
mod report;
mod words;

pub use breaches::append_delivery;
pub use key::{KeyParts, key_parts};
pub use report::report_text;
