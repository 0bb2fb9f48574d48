//! Which element of a set is shown as the number of its document, as the number of an order.
//!
//! Proved:
//! - `document_number` is that element of the first segment with the id, by the first entry for the set's ST01, in one walk;
//! - `document_of` reads exactly the texts of the form `850=BEG03`, and `documents_given` has those that are given before the usual ones.
//!
//! Source: own; X12.6, transaction set header (ST01) and segment.
//!
//! Tests: `trial_track`.
#![tactic(auto)]

mod document;
mod given;

pub use document::{Document, document_number};
pub use given::{document_of, documents_given};
