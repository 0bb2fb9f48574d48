//! The folder of all nights as it is read: which nights it has, and what is kept of each.
//!
//! Proved:
//! - a file and a folder are known by the path that they were asked for, and only a call of the system makes one (`read_paper`, `list_at`);
//! - a name in the folder is that of a night, or the system said that it has no file `done`, or it begins with a dot (`marks_at`);
//! - what is kept of a night is an entry of the bytes of its files, at their paths in its folder, and its input has the sum that was
//!   written down; otherwise one file of it is named that can't be read or isn't what a night leaves (`read_nights`);
//! - nights that are archived as one are in a folder beside the others (`home_of`). What is kept of them is an entry of the bytes of their
//!   tables, whose sums are those that are listed; otherwise one file is named (`read_nights`).
//!
//! Only tested: that the names of a folder are all of them, and that a file's bytes are those at its path, since no contract says what the
//! system gives.
//!
//! Source: own; FIPS 180-4.
#![tactic(auto)]

mod archived;
mod files;
mod home;
mod listing;
mod mark;
mod night;
mod paper;
mod sums;

pub use archived::ArchiveFiles;
pub use files::{Left, MadeOf, NightFiles};
pub use home::{archive_path, home_of};
pub use listing::{Listing, list_at};
pub use mark::{is_there, marks_at, marks_in};
pub use night::{NightRead, entries_in, read_nights};
pub use paper::{PaperAt, first_line, paper_of, read_paper};
