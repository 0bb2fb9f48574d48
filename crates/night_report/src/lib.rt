//! The report of a night: a line for each interchange, for each of its groups and for each set that is held, and a last
//! line of totals; and whether a night was clean, read from its report.
//!
//! Proved:
//! - `report_text` is the report of what is known of a text, byte for byte;
//! - `ReportLines` continues from text to text: `append` reports more interchanges, numbered on, at the offsets of the whole, and `close`
//!   ends with all that was counted;
//! - `LineWriters` write the same by one thread, or by many: each half of the interchanges by half of them; with the lines they give the
//!   sets that are delivered to each partner, since the outcomes of a set are worked out once for both;
//! - `partner_name` and `sender_name` are the names of a partner and of a sender, `verdict_at` the verdict on a group;
//! - `is_clean` is false exactly where a line of the report shows something refused or held, or its last line doesn't
//!   say that nothing is outside interchanges.
//!
//! Source: own; X12.5, interchange control number (ISA13); X12.6, functional group header; 999 guide, AK901 and AK904.
//!
//! Tests: `trial_nights`.
#![tactic(auto)]

mod clean;
mod groups;
mod halving;
mod held;
mod lines;
mod named;
mod report;
mod reported;
mod spaced;
mod told;
mod totals;
mod writers;

pub use clean::is_clean;
pub use groups::verdict_at;
pub use named::{partner_name, sender_name};
pub use report::report_text;
pub use reported::Reported;
pub use told::ReportLines;
pub use writers::LineWriters;
