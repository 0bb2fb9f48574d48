//! The table of a night's sets as it is read from its file, and as it is exported.
//!
//! Proved:
//! - `read_table` gives the rows of a table: the bytes are the line of columns and the records of these rows as `csv_fields` writes them,
//!   and each row has all columns; it gives none only if no rows have these bytes, so that a table which was cut off has none;
//! - `read_state` gives the rows of a table if it can be read, and says otherwise whether its file can't be read or isn't a table;
//! - `append_rows` writes just the rows of the definition, each with the night's name before it.
//!
//! Source: RFC 4180; which columns there are, is own.
//!
//! Tests: `.ci/find`.
#![tactic(auto)]

mod export;
mod fields;
mod night;
mod table;
mod written;

pub use export::{Form, append_columns, append_rows};
pub use fields::field;
pub use night::{NightTable, TableState, read_state};
pub use table::read_table;
