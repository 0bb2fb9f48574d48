//! Whether the nights of a hub are all there, and are what their records say, before a run adds one.
//!
//! A hub's file `last` names the night that was the last when a run ended. It is outside the folder of nights: if that folder's disk isn't
//! mounted, or was restored from an older copy, the night that it names isn't there.
//!
//! Proved:
//! - `check_intact` accepts nights exactly if the night that `last` names is among them, or the system said that nothing is at its path,
//!   and their records go on: each has the next number, names the record before it, and lists the files in its night's folder with their
//!   sums;
//! - it names the first cause for which it refuses them: the night that is gone, or the lines on their records.
//!
//! Source: own; FIPS 180-4 (SHA-256).
#![tactic(auto)]

mod check;
mod fault;

pub use check::check_intact;
pub use fault::IntactFault;
