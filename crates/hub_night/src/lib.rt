//! A night of a hub: it is made in memory of the hub's own files and of the files of a day, and only if all nights with it continue.
//!
//! Proved:
//! - `day_of` judges each file of a day alone: one that is gathered is set aside exactly if the night of that file alone delivers a set
//!   that an older night delivered, and it isn't asked for again. What goes in of the others, in their order, is the input. If each file is
//!   set aside, no day is given (`IsJudgedDay`, `IsMemberOf`). The sets that are asked for again are just those that the files which are
//!   asked for again deliver, each in the night of that file alone (`AreAgainKeys`);
//! - `made_of` makes a night only if all nights with it continue: it is the definition's run by just the bytes that are among its files
//!   (`IsTonight`); it begins each address where the last night that knows the address left it; and with it no set is delivered to a
//!   receiver on two nights, but one that it was asked for again (`GoOn`);
//! - the night has just the files of the definition (`AreKeptFiles`), the last of which is its record. This names the SHA-256 of the record
//!   of the night before.
//!
//! A night, the files of its day, its input and its own files are in memory together.
//!
//! Source: own.
//!
//! Tests: `.ci/hub`.
#![tactic(auto)]

mod day;
mod entry;
mod made;
mod night;
mod setting;
mod side;
mod sound;
mod stopping;
mod tables;

pub use day::{Day, Judged, day_of};
pub use night::{Made, made_of};
pub use setting::Setting;
pub use side::joined;
