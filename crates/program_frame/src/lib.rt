//! What the hub's programs share: how a program reads its arguments, shows help and version, names a mistake in its arguments, and ends.
//!
//! Proved:
//! - what clap finds in a program's arguments is what its definitions say of them, or it is the text that they ask for; arguments that are
//!   taken are never called a mistake (`match_words`);
//! - a program has a version, and its arguments begin with none of its name (`program`); each kind of argument has the rule of its
//!   definition (`option_free`, `option_repeated`, `option_flag`, `word`, `words`);
//! - the line of a mistake is the one of the definition, after the program's name, and so is its status: 2 for usage, 6 for memory
//!   (`Mistake`);
//! - a text is printed whole and nothing else is, or the program says that standard output failed, and ends with 5 (`print_out`).
//!
//! Only tested: which words of clap a mistake has.
//!
//! Source: own.
//!
//! Tests: `tests/pages`, and those of each program.
#![tactic(auto)]

mod arguments;
mod ending;
mod matching;
mod mistake;

pub use arguments::{option_flag, option_free, option_repeated, program, word, words};
pub use ending::{Reported, print_out, report_memory};
pub use matching::{Matched, match_words};
pub use mistake::Mistake;
