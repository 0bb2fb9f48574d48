//! The records of a folder's nights as they are read, and what is printed of them.
//!
//! Proved:
//! - `review_records` reads the record of each night at its path, and the files in its folder and in the folders `from`, `from/guides`,
//!   `from/files` and `out` there;
//! - if no record can be read, it prints nothing. Otherwise it prints a line for each night whose record can't be read or isn't one, a line
//!   for each break of the chain that the other records are, and a total with the sum of the last record;
//! - its status is 0 exactly if no record can be read, or each night has its record and the records are chained: each has the next number,
//!   names the record before it, and lists the files in its night's folder, which have the sums that it lists;
//! - if nights are archived, their record is the one before that of the first night which isn't: it is neither counted among the records
//!   nor compared with files.
//!
//! Only tested: that the names of a folder are all of them, and that a file's bytes are those at its path, since no contract says what the
//! system gives.
//!
//! Source: own; FIPS 180-4 (SHA-256).
//!
//! Tests: `.ci/hub`.
#![tactic(auto)]

mod found;
mod lines;
mod names;
mod read;
mod review;

pub use review::{RecordsReport, review_records};
