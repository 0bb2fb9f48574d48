//! The desk at which workers claim jobs: it gives the numbers of the jobs in order, each once, to any
//! number of threads, by one shared word and without a lock. A worker has a seat; a seat can be cut in
//! two for a new worker, and joined again when that one is done.
//!
//! Proved, for every interleaving of the threads:
//! - `Desk::claim` answers a job below the count, which is added to what the seat got; none only where
//!   each job was given to some seat, and what the seat got stays;
//! - `Desk::split` cuts weight 1 off a seat, `Desk::join` adds up what two seats got, their weights and
//!   their ends;
//! - the rule of the shared word (`IsDesk`): the numbers that all seats got are those below the word, each
//!   once; the weights add up to the desk's seats; the word is past the last job by as many claims as
//!   seats have ended. The word is private, and each step of it keeps the rule: making, claiming,
//!   cutting, joining, and a look, which changes nothing;
//! - so a seat that is all the desk's seats, of which one has ended, has got each job once, as `claim`
//!   or `join` leaves it (`Seat::weight`).
//!
//! Own; no standard speaks of it. That a thread gets on isn't claimed.
//!
//! As its trial, the crate `trial_workers`, calls it:
//!
//! ```rust
//! let (desk, mut seat) = Desk::new(rt.alloc(), 2, 1)?;
//! assert_eq!(rt; (desk.count(), seat.weight()), (2, 1));
//! assert_eq!(rt; desk.claim(&mut seat), Some(0));
//! ```
#![tactic(auto)]

mod desk;
mod rule;

pub use desk::{Desk, JobNo, Seat};
