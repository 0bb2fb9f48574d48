//! The calendar: which dates and times there are, and the moment of a run.
//!
//! Proved:
//! - `At::read` answers a moment exactly for the twelve digits CCYYMMDDHHMM of a day and a time that exist, which is where the
//!   first eight are a date and the last four a time;
//! - `is_digits`, `is_date` and `is_time` say whether a text is digits alone, a date, a time of day.
//!
//! Source: X12.6, date and time data element types (DT, TM). `jiff` says which days exist. Dates of six digits are own.
//!
//! As its trial, the crate `trial_guides`, calls it:
//!
//! ```rust
//! match At::read(b"202603011530") {
//!     None => Err("no moment".into()),
//!     Some(at) => expect_digits(rt.alloc(), &at),
//! }
//! ```
#![tactic(auto)]

mod at;
mod calendar;

pub use at::At;
pub use calendar::{is_date, is_digits, is_time};
