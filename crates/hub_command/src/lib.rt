//! The nights of a hub, run one after another: each is made in memory of the hub's own files and of the files of a day, and is kept only if
//! all nights with it continue.
//!
//! Proved:
//! - `read_words` gives what the arguments ask for, as clap's definitions say, and calls usage only what is none;
//! - a night that `run_on` keeps is the definition's run by just the bytes that are in its folder (`IsTonight`); it begins each address
//!   where the last night that knows the address left it; and with it all nights continue (`GoOn`): no set is delivered to a receiver on
//!   two nights, but one that the later night was asked for again, the numbers of each address begin where they were left, each file has
//!   the sum that is listed, and no moment is before that of the night before or after a limit;
//! - its input is just what goes in of the files of the day, which it reads each alone. A file that is gathered is set aside exactly if the
//!   night of that file alone delivers a set that an older night delivered, and it isn't asked for again (`IsDayOf`, `IsMemberOf`). If each
//!   is set aside, no night is made;
//! - the sets that it was asked for again are just those that the files which are asked for again deliver, each in the night of that file
//!   alone. They are in its folder, and later nights read them there (`AreAgainKeys`);
//! - its folder has just the files of the definition (`AreKeptFiles`), the last of which is its record. This names the SHA-256 of the
//!   record of the night before;
//! - it is kept on the shelf by one rename, once all of it is on the disk (`IsKept`). Whatever `run_on` answers, a stop leaves the nights
//!   as they were, or with this one (`stopped`);
//! - if the night that is asked for is the last one already, of the same files, nothing is run, and the same lines are printed;
//! - before `hub_main` prints lines of a night, the night that the hub's file `last` names was among the nights, and each night was what
//!   its record says (`AreIntactAt`). The night's folder has the sum of the program's file, if that file can be read (`IsProgramLine`);
//! - with status 0 or 1 `hub_main` has printed just what its definition says, and nothing on standard error; it ends with 2 only if the
//!   arguments are wrong.
//!
//! Only tested: that the lock keeps other runs away; that the system makes, syncs and renames what it is asked for (`FolderShelf` says what
//! is trusted); that `init` and `give-up` change the folder as their lines say; that a run writes `last` once its night is kept, and
//! `give-up` before it moves one; what the clock says; what a terminal is shown.
//!
//! A night, the files of its day, its input and its own files are in memory together.
//!
//! Source: own.
//!
//! Tests: `.ci/hub`.
#![tactic(auto)]

mod changed;
mod command;
mod give_up;
mod help;
mod init;
mod program;
mod progress;
mod reading;
mod ready;
mod run;
mod there;
mod words;

pub use command::{Asked, Options, is_of_hub, read_words};
pub use program::hub_main;
pub use progress::Terminal;
pub use run::run_on;
