//! The folder of a hub: its setup, its guides and its first counters, the nights that it has, the lock that one run at a time holds, and
//! why a call on it fails.
//!
//! Proved:
//! - `papers_at` gives the bytes of the hub's own files, the guides in the order of their names; a file that is there and can't be read is
//!   a failure (`ArePapersAt`);
//! - `older_of` gives the nights of a hub in their order, what is kept of each, and what the next night takes over of the last one: the
//!   SHA-256 of its record, and where it left each address that was ever sent to (`IsOlder`, `IsChain`);
//! - `see_intact` succeeds only if the night that the hub's file `last` names is among the nights, and each night is what its record says
//!   (`AreIntactAt`);
//! - `program_line` gives the line that sha256sum prints of the file that the system runs, or no bytes if it can't be read
//!   (`IsProgramLine`);
//! - `Failure::report` prints the line of a failure, and gives its status.
//!
//! Only tested: that the lock keeps other runs away; that `note_last_night` and `note_before` write the file `last`, or remove it; which
//! names `last_names` gives; what the clock says.
//!
//! Source: own.
//!
//! Tests: `.ci/hub`.
#![tactic(auto)]

mod chain;
mod clock;
mod failure;
mod intact;
mod last;
mod lock;
mod names;
mod nights;
mod older;
mod papers;
mod program_sum;
mod told;

pub use chain::{Chain, chain_at};
pub use clock::clock_text;
pub use failure::{Failure, print_named};
pub use intact::{note_last_night, see_intact};
pub use last::note_before;
pub use lock::{Lock, Lockable, lock_hub};
pub use names::{folder_name, is_night_name, is_path};
pub use nights::{last_names, marks_at};
pub use older::{Older, last_of, next_after, older_of};
pub use papers::{HubPapers, papers_at, path_in, path_text};
pub use program_sum::program_line;
pub use told::Told;
