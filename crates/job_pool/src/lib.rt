//! Work that threads share: jobs by number, and the shares in which a night's sets are written.
//!
//! Jobs by number, done by workers in threads of their own: one answer for each job, in the order of the
//! jobs, whichever worker did it and whenever. Workers claim jobs at one desk (`claim_desk`); each has its
//! own list of answers, and something of its own that it hands back. What a job is and what an answer to it
//! says, a `Task` says by its types.
//!
//! Who renders what a night sends: the thread that asks, or as many threads as the night has workers.
//!
//! Proved, for every interleaving of the threads: where `run_tasks` answers Ok
//! - there is one answer for each job, in the order of the jobs;
//! - the seat that the workers held together has got each job once;
//! - each worker's own thing is handed back.
//!
//! It refuses where memory or a thread is refused, and then gives nothing. Own; no standard speaks of it. That a
//! thread gets on, or that two of them ran, isn't claimed.
//!
//! Proved of shares:
//! - a thread's share of the items is never smaller than what a thread is worth being started for, and with shares of that size there are
//!   no more of them than workers.
//!
//! As its trial, the crate `trial_workers`, calls it:
//!
//! ```rust
//! let owns = zeros(rt.alloc(), 2)?;
//! let ran = run_tasks(&rt, rt.alloc(), &Refused, 5, owns, 2);
//! assert!(rt; matches!(ran, Err(PoolFault::NoMemory)));
//! ```
//!
//! Tests: `trial_nights`.
#![tactic(auto)]

mod crew;
mod order;
mod rendering;
mod run;
mod task;

pub use rendering::{ManyThreads, OneThread};
pub use run::{Ran, run_tasks};
pub use task::{PoolFault, Task};
