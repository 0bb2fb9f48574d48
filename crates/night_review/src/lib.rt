//! Whether the nights of a folder continue from one another: which nights it has, what they break, and what is printed of them.
//!
//! Proved:
//! - the nights of a folder are those of the names that were listed in it; if nights are archived, one represents these, and the nights up
//!   to it are passed over (`nights_at`);
//! - what is printed of nights is the text of the definition: how many are archived, a line a breach and a total. The status is 0 exactly
//!   if they continue: each of their files is what it must be, each night names the one before it, no set is delivered to a receiver on two
//!   nights, the numbers of each address begin where they were left, no moment is before that of the night before or after a limit, and the
//!   last night is the one that is named last (`judged`).
//!
//! Only tested: that the limit is two days after the clock, in UTC, since no contract says what the clock gives.
//!
//! Source: own.
//!
//! Tests: `.ci/nights_go_on`, `.ci/hub`.
#![tactic(auto)]

mod count;
mod fault;
mod judge;
mod moments;
mod nights;

pub use fault::ReviewFault;
pub use judge::{Report, judged};
pub use moments::{limit, moment_now};
pub use nights::nights_at;
