//! The readers of keys of a TOML file, on which those of guide files and of setup files are side by side.
//!
//! Proved, out of memory aside:
//! - `required` and `optional` give what is at a key, as a `Reading` reads it, or refuse it as missing or as of another type
//!   or form;
//! - `tables_at`, `some_tables_at`, `table_at` and `some_table_at` lend the tables that are at a key, or refuse it likewise;
//! - `refuse_unknown` refuses exactly the least key of a table that isn't listed, in the order of bytes;
//! - `AnyText`, `Word`, `Count`, `ListOf` and `Present` read texts, words, numbers, lists and what may be absent;
//! - each refusal has its number.
//!
//! Source: own; what a file's table holds is said by `toml`.
//!
//! Tests: `trial_command`, `trial_explain`, `trial_guides`, `trial_nights`, `trial_sets`, `trial_track`, `trial_workers`.
#![tactic(auto)]

mod file_fault;
mod keys;
mod lists;
mod reading;
mod tables;
mod text_fault;
mod values;

pub use file_fault::FileFault;
pub use keys::refuse_unknown;
pub use lists::ListOf;
pub use reading::{Present, Reading, optional, required, value_at};
pub use tables::{some_table_at, some_tables_at, table_at, tables_at};
pub use text_fault::TextFault;
pub use values::{AnyText, Count, GREATEST_NUMBER, Word, copy_of};
