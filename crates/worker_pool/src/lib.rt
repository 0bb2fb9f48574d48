//! The four phases of a text's work as jobs done by workers, after a gate: the headers that begin in a piece of the text, the
//! marks of a piece under a pair of delimiters, the judgement of an interchange of its index, and the check of the set at each place
//! of a settled index, whose place is recorded first. An answer says by its type what it is the answer to, so that nothing is known
//! of the workers, their order or their number (`job_pool`, `claim_desk`, `number_register`).
//!
//! Proved, for every interleaving of the threads, every number of workers and every gate: where a call answers Ok
//! - `run_jobs` gives one answer to each job, in the order of the jobs. That to a piece's heads is the list of the headers that begin
//!   in it (`HeadsDone::into_heads`), that to its marks its marking under the pair (`MarksDone::into_marks`), that to an interchange
//!   the least of its faults 1 to 7 (`JudgeDone::fault`);
//! - `run_checks` gives one answer to each job, in the order of the jobs, the seat that claimed each once, and the records of the
//!   register's index. An answer is a `Finding` at its job's place, which was recorded; a set is checked by the guide of its job;
//! - after them all is done, by the rule of any pool of workers (`checks_are_complete`): each job claimed and finished once, each
//!   place recorded once, and nothing else.
//!
//! A call refuses where memory or a thread is refused, and then gives nothing. That a thread gets on, or that two of them run, isn't
//! claimed: the trial, `trial_workers`, makes them meet and wait for one another by gates.
//!
//! X12.5, interchange; X12.6, segment, functional group and transaction set. Workers and gates are own.
//!
//! As its trial calls it:
//!
//! ```rust
//! let jobs = heads_jobs(alloc, text, size)?;
//! let Ok(done) = run_jobs(rt, alloc, jobs.as_slice(), workers, gate) else {
//!     return Err("refused".into());
//! };
//! ```
#![tactic(auto)]

mod checks;
mod complete;
mod done;
mod gate;
mod heads;
mod job;
mod judgement;
mod marks;
mod phase;
mod place_job;
mod pool;

pub use checks::{Checked, run_checks};
pub use complete::checks_are_complete;
pub use done::run_check;
pub use gate::{Gate, OpenGate};
pub use heads::{HeadsAsked, HeadsDone, HeadsJob};
pub use job::{CheckJob, SetJob};
pub use judgement::{JudgeAsked, JudgeDone, JudgeJob};
pub use marks::{MarksAsked, MarksDone, MarksJob};
pub use phase::{Job, run_job};
pub use pool::run_jobs;
