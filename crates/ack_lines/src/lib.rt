//! The lines that say in words what acknowledgments report: of each interchange that is answered, of each group and set that isn't
//! accepted, with each fault by its segment, its element and its code, and their names if a names file has them; and a last line of totals.
//!
//! The sentences are constants (`sentences`), and so are the words of the codes (`words`): what is wrong with a segment, an element, a set
//! or a group, the verdicts on sets and groups, and the note on an interchange. They are those of docs/ACKNOWLEDGMENT.md, and no clause
//! says what they are.
//!
//! Proved:
//! - `words_of` gives the words that a table has for a code's text, and other words where it has none;
//! - each code that the hub writes has words, and so have its notes on interchanges;
//! - `explanation` and `named_explanation` are just these lines, of what is reported in its order, but a group that is rejected before its
//!   sets, byte for byte; texts of the acknowledgment and names are shown without bytes that don't print, and cut to 99 bytes; all that
//!   they report is in the lines, each once;
//! - `fault_lines` gives the lines on segments and elements alone, of part of an acknowledgment, too.
//!
//! Source: own; X12.5, TA1, TA104 and TA105; 999 guide (005010X231), AK1, AK2, IK3, IK4, IK5 and AK9, and the code lists of IK304, IK403,
//! IK501, IK502, AK901 and AK905.
//!
//! Tests: `trial_explain`.
#![tactic(auto)]

mod explain;
mod heads;
mod laws;
mod lines;
mod notes;
mod reported;
mod sentences;
mod shown;
mod words;

pub use explain::{explanation, fault_lines, named_explanation};
pub use laws::{codes_have_words, notes_have_words};
