//! Guide files: a partner's implementation guide, written in TOML, read exactly, or refused with its first fault.
//!
//! Proved: `read_guide` refuses bytes as no TOML exactly where `toml` reads no table from them, out of memory
//! aside; else its answer is a function of the table, which the definitions give: the least key that a table may
//! not have, then the first key that is missing or has another type or form, in the order of the tables and of
//! their keys, with the number of the node in which it is; then what the check of the guide refuses; else the guide
//! that the file writes, all of it. `read_rows` gives the rows of that guide without their check.
//!
//! Source: the format is own; its words for rows and conditions are those of X12.6 (requirement designator, data
//! element types, relational conditions).
//!
//! As its trial, the crate `trial_guides`, calls it:
//!
//! ```rust
//! match read_guide(alloc, file) {
//!     Ok(_) => None,
//!     Err(fault) => Some(fault),
//! }
//! ```
#![tactic(auto)]

mod counts;
mod element_text;
mod entry;
mod fault;
mod fault_codes;
mod keys;
mod laws;
mod listed_text;
mod lists;
mod nodes;
mod read;
mod stops;
mod table;
mod tokens;
mod values;

pub use fault::GuideFileFault;
pub use laws::{files_write_references, written_row_is_read_back};
pub use listed_text::{ListedText, can_stand};
pub use read::{read_guide, read_rows};
pub use stops::{ElementStop, Wanted, element_stop};
pub use toml_keys::{
    AnyText, Count, ListOf, Present, Reading, TextFault, Word, optional, refuse_unknown, required,
    some_table_at, some_tables_at, table_at, tables_at,
};
