//! Comma-separated values (RFC 4180): a record's fields, each written after what is there; and the columns of the table of a night's sets,
//! their names and places (`columns`).
//!
//! Proved:
//! - `append_field` and `append_fields` write a field as it is, or in quotes exactly where a byte of it isn't TEXTDATA, with each quote
//!   twice and every other byte as it is; `append_end` ends the record;
//! - `column_line` is the record of the names of the columns, and there are `COLUMNS` of them.
//!
//! The kit's `csv` quotes fewer fields, and makes each record whole in its own writer; here the first fields of many
//! records are written once.
//!
//! Source: RFC 4180; which columns there are, is own.
//!
//! Tests: `trial_track`, `.ci/find`.
#![tactic(auto)]

pub mod columns;
mod fields;

pub use fields::{append_end, append_field, append_fields};
