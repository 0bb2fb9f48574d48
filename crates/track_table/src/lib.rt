//! Where each set of the night of a text is, worked out on one thread: a table of comma-separated values (RFC 4180) with a row for each
//! set and receiver, from what was read of it to the numbers under which it is in a mailbox. Of the answers to an interchange only what
//! its rows ask for is kept: the standing of each group, the codes of groups and sets, how many faults are reported of each set, and to
//! whom it is acknowledged. Of the faults themselves those of one interchange are held at a time.
//!
//! Proved:
//! - `track_plain` gives the table of the definition, byte for byte, for every text and setup, and whether the night is clean;
//! - `track_text` gives that table by the interchanges of a night and what is kept of their answers;
//! - `note_text` keeps of each interchange just that of its one answer, as `set_answers` defines it (`night_law::answers_are_one`).
//!
//! Numbers of mailboxes are those of the mailbox's own definition (`mailbox`): a tally gives the first numbers of a partner, and not which
//! group a set is in.
//!
//! Source: RFC 4180; X12.5, interchange, the elements of its header (ISA) and interchange acknowledgment (TA1); X12.6, functional group and
//! transaction set; 999 guide (005010X231), IK5 and AK9. Which rows there are, and what is kept of the answers, is own.
//!
//! Tests: `trial_track`.
#![tactic(auto)]

mod answer_notes;
mod cells;
mod cursor;
mod ends;
mod hindrance;
mod limits;
mod mailed;
mod noted;
mod notes;
mod rows;
mod sent;
mod starting;
mod table;
mod track;
mod tracking;

pub use mailed::Mailed;
pub use noted::{NotedText, note_text};
pub use notes::{GroupNotes, Notes, SetNotes};
pub use table::track_text;
pub use track::{Track, track_plain};
