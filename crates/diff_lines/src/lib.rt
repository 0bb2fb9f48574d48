//! The differences of two guides in words: a line each, and a last line of totals.
//!
//! Proved: `diff_text` gives just the text of the definition. Each difference has its line, in their order: what it does to the sets that
//! meet the guide, where it is, and what both guides say. The place is the path of loops and ids to the segment or loop, in the old guide
//! if the new one has it no more, with its number there. The last line counts the differences of each kind.
//! `line_of` gives one of the lines.
//!
//! In each line bytes that control a terminal are escaped, so that it is one line whatever a guide's author wrote.
//!
//! Source: own.
#![tactic(auto)]

mod lines;
mod paths;
mod totals;
mod values;
mod words;

pub use lines::line_of;
pub use paths::paths_of;
pub use totals::diff_text;
