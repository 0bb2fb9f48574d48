//! The definition of a night and the layers write the same: texts and codes, acknowledgments, deliveries, mailboxes and report.
#![tactic(auto)]

mod laws;

pub use laws::{
    acknowledgments_are_one, answers_are_one, boxes_are_one, codes_are_one, deliveries_are_one,
    reports_are_one, texts_are_one, totals_are_one,
};
