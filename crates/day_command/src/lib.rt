//! A run of `nighthub_day`, from its arguments to its status: the arguments, the folder of all nights, what is printed.
//!
//! Proved:
//! - `read_words` gives what the arguments ask for, as clap's definitions say, and calls usage only what is none;
//! - `day_main` does what they ask for, and prints just the text of its definition on the nights that were read of the folder, each file at
//!   its path, in the nights' order;
//! - check prints a line a breach and a total. It ends with 0 exactly if the nights that were read continue: each of their files is what it
//!   must be, each night names the one before it, no set is delivered to a receiver on two nights, the numbers of each address begin where
//!   they were left, no moment is before that of the night before or after a limit, and the last night is the one that is named last; and
//!   if the records of these nights are chained, unless none can be read; else with 1;
//! - find prints a line for each row whose document has the text, and for each table that wasn't read. It ends with 0 exactly if a row has
//!   the text and each table was read; else with 1;
//! - export prints one CSV of the rows of all tables that were read, each with its night, and names the others on standard error. It ends
//!   with 0 exactly if each table was read; else with 1;
//! - page prints the page of the definition on one night, of its table, of the acknowledgments in its folder out/, and of its files
//!   files.txt, night.toml and from/in.x12, if it has them. It ends with 1 exactly if there is something to do at the hub, and with 4 if
//!   the table or the folder can't be read, or if the table doesn't give the totals of the night's report, by its file total;
//! - again prints the sets of a night that were held for lack of a route, or that were rejected, as an input, by the night's input and its
//!   table. It ends with 0 exactly if there is such a set; else with 1 and a line on standard error; and with 4 if the input or the table
//!   can't be read, or the table isn't that of the input;
//! - it ends with 2 only if the arguments are wrong, and prints nothing on standard output if the folder or the clock can't be read, or if
//!   memory is refused; with 0 or 1 nothing but export and again prints on standard error;
//! - the line of a failure is the one that belongs to it, and so is its status.
//!
//! One night's table is in memory at a time. What is printed is kept in memory until all nights were read, so that a run which fails prints
//! no part of it.
//!
//! Source: own.
//!
//! Tests: `.ci/nights_go_on`, `.ci/find`.
#![tactic(auto)]

mod again;
mod command;
mod export;
mod failure;
mod find;
mod inner;
mod page;
mod papers;
mod record;
mod run;
mod tables;
mod told;

pub use command::{Asked, read_words};
pub use failure::Failure;
pub use run::day_main;
