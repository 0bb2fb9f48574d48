//! The ends of the programs to the system: the arguments that they are called with, a reader as a source of bytes, what is printed, and a
//! folder as an outbox for files.
//!
//! Proved:
//! - what a reader gives is what its input has, until a read of that failed: no byte is lost or added, and no failure is taken for the
//!   end (`Reader`, `remaining`); whether an error is an interruption or a failure, its kind says (`answer_of`);
//! - what is read whole of a reader is all of its bytes (`read_whole`);
//! - the texts that the command line gives an argument are those that clap found (`texts_given`), and what is printed is the text
//!   (`print_text`);
//! - a file is put only by a `Written` of its name and its bytes, which nothing but the write of just these bytes into a file makes
//!   (`write_and_sync`), so a put can't succeed where nothing was written; that file was made for the path that it says (`Created`,
//!   `create_at`), and a folder's files are at its path, a slash and their name (`Directory`, `path`); how often a put failed, out of
//!   memory aside, is counted by the kinds of its errors (`Outbox`, `faults`);
//! - what is opened is known by the path that it was asked for (`Opened`, `open_at`), and whether it was opened by the system's answer;
//! - a file that is made shows how the system was asked for it: for a new one, so that one that is there is never opened
//!   (`create_new_at`), or for one that is emptied (`create_at`);
//! - that nothing is at a path is known only by the system's answer of that path (`look_at`, `Absent`);
//! - how many bytes a reader gave is counted (`Reader`, `given`);
//! - the mistake of a command line that is printed is in one line, without bytes that control a terminal (`mistake_found`).
//!
//! Only tested: that what was written is flushed and synced, that the system is asked for the file at the path, and in the way, that is
//! shown, and that a put gives the system's own error on, since no contract says what `flush` and `sync_all` do, what is at a path, nor
//! which error a call of the system gives; and which words of clap a mistake has.
//!
//! Source: own.
//!
//! Tests: `trial_streams`, `trial_track`.
#![tactic(auto)]

mod creating;
mod directory;
mod looking;
mod mistake;
mod opening;
mod outbox;
mod printing;
mod reader;
mod release;
mod words;
mod written;

pub use creating::{Created, create_at, create_new_at};
pub use directory::Directory;
pub use looking::{Absent, Looked, Presence, look_at};
pub use mistake::{in_one_line, mistake_found};
pub use opening::{Opened, open_at};
pub use outbox::{Outbox, faults_behind};
pub use printing::print_text;
pub use reader::{Reader, read_whole};
pub use release::RELEASE;
pub use words::{copied, texts_given, with_argument};
pub use written::{Written, write_and_sync};
