//! The shelf that keeps nights, one after another: each night is a folder that gets its name by one rename, once all of it is on the disk.
//!
//! Proved, of every `Shelf`: when `keep` succeeds, the night is there, whole, whatever stops from then on. Whatever `keep` answers, a stop
//! leaves the nights as they were before the call, or these and this one. A call of a shelf that fails stands for a stop at this moment,
//! and `keep` calls nothing after one.
//!
//! `MemoryShelf` is a shelf of which all is known: the clauses can be met. Of `FolderShelf`, over the files of the system, nothing is
//! known to a clause: its comment says what is trusted.
//!
//! Source: own.
#![tactic(auto)]

mod folder;
mod keeping;
mod memory;
mod night;
mod shelf;

pub use folder::FolderShelf;
pub use keeping::keep;
pub use memory::MemoryShelf;
pub use night::{KeptNight, NightFile};
pub use shelf::{Shelf, ShelfFault};
