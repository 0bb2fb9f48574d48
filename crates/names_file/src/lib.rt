//! A names file beside a guide: why a file is refused, in words, and what it has words for that the guide doesn't have.
//!
//! Proved:
//! - a file is taken with just the words that its bytes write, or refused in the words of its first fault; a file that can't be read is
//!   refused (`judge_names`);
//! - the warnings are a line for each segment, element, code and label that the file has words for and the guide doesn't have, in the
//!   file's order, and no other (`warning_lines`).
//!
//! The warnings take as many steps as both files have names, times the logarithm of that.
//!
//! Source: own.
//!
//! Tests: `.ci/samples`.
#![tactic(auto)]

mod guide_subjects;
mod judge;
mod slot_subjects;
mod warnings;

pub use judge::{JudgedNames, judge_names};
pub use warnings::warning_lines;
