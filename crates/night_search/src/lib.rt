//! The rows of nights whose document has a text, and the lines that say so.
//!
//! Proved:
//! - a search has a line for each row whose document has the text, in the order of the nights and of their rows, and a line for each table
//!   that wasn't read (`Search::add`); if there are no lines, it says that no document has the text (`Search::report`);
//! - it is complete exactly if a row was found and each table was read;
//! - `append_unread` appends the line on a table that wasn't read, and nothing for one that was;
//! - `append_outcome` appends just the words on a row's outcome, and `append_parts` just its parts.
//!
//! In each line a byte that controls a terminal is escaped, so that it is one line whatever a partner wrote.
//!
//! Source: own.
//!
//! Tests: `.ci/find`.
#![tactic(auto)]

mod append;
mod contains;
mod row;
mod search;
mod unread;

pub use append::append_parts;
pub use row::append_outcome;
pub use search::{Found, Search};
pub use unread::append_unread;
