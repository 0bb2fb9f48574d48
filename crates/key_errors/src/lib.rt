//! What is wrong with a key of a guide file, a setup file or a counters file, in words: the table in which it is, by its number and its
//! name, the value that is there, and one cause. Of a list of texts it is the first that can't be there, and of the text of a data
//! element's row the first token that can't.
//!
//! Proved: each sentence is the one that the definitions give, byte for byte, of the file's table and of the refusal. The table that is
//! named is the first of which the refusal holds, in the order in which the readers of these files read them. Of bytes that write no table
//! the line and the column are those of the first byte that is no UTF-8, or else of a place in the file, and what is shown is what is
//! there (`no_table_text`). What the value of a key must be is a table of constants, which the definitions name (`wanted`).
//!
//! What is said of all keys that can't be, table by table, is as the definitions have it too (`push_setup_keys_said` and the others).
//!
//! Only tested: that the place in UTF-8 that is no TOML is where its fault is, and that the cause is that of the fault.
//!
//! Source: own.
//!
//! Tests: `trial_explain`.
#![tactic(auto)]

mod guide_spot;
mod holds;
mod items_words;
mod key_forms;
mod key_tables;
mod key_words;
mod keys_said;
mod list_items;
mod no_table;
mod node_tables;
mod rows;
mod shown;
mod spot;
mod spots;
mod stop_words;
mod table_words;
mod text_places;
mod toml_cause;
mod wanted;
mod words;

pub use key_words::{append_counters_key_words, append_guide_key_words, append_setup_key_words};
pub use keys_said::{push_counters_keys_said, push_guide_keys_said, push_setup_keys_said};
pub use no_table::no_table_text;
