//! The rule by which any number of workers do jobs: they claim them in order, record their index places and finish
//! them, one event after another. A job has at most one place. What an event needs and does is said of plain lists, so
//! it holds of whatever keeps them: a desk's word and a seat (`claim_desk`), a register under a lock, each worker's own
//! list of answers.
//!
//! Proved, for every list of events:
//! - `CoreState::step` takes an event exactly where it is enabled, and then does what the rule says (`is_enabled`,
//!   `after`); one that isn't enabled changes nothing, also one of a worker that isn't there, and neither does one for
//!   which memory is refused;
//! - `run_events` gives the state after all events of a list, in their order;
//! - `CoreState::is_complete` answers true exactly where all is done (`Complete`): each job is claimed once and finished
//!   once, each job's place recorded once, and nothing else;
//! - all such lists, of any workers in any order, leave the same places recorded and the same jobs finished
//!   (`complete_is_one`).
//!
//! Own; no standard speaks of it. The state is kept for the rule's sake: it looks through its lists, so n jobs cost n * n.
//! That a worker gets on isn't claimed.
//!
//! As its trial, the crate `trial_workers`, calls it:
//!
//! ```rust
//! let events = [
//!     Event::Claim(1),
//!     Event::Claim(0),
//!     Event::Finish(0, 1),
//!     Event::Finish(1, 0),
//!     Event::Claim(0),
//!     Event::Claim(1),
//! ];
//! let state = run_events(alloc, vec![in alloc; None, None]?, 2, &events)?;
//! assert!(rt; state.is_complete());
//! ```
#![tactic(auto)]

mod complete;
mod event;
mod laws;
mod rules;
mod state;

pub use event::{Event, Stepped};
pub use laws::complete_is_one;
pub use state::{CoreState, Finished, Worker, run_events};
