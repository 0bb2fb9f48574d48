//! The one writing of every run: what a night has written so far, to which batches of interchanges are added, and which is closed after
//! the last of them. It lends from no text, so that text after text may come; a text that is held whole is one batch.
//!
//! Proved:
//! - before any batch nothing is written (`Writing::new`);
//! - a batch is written after those before it: each partner's acknowledgments and its delivered sets are numbered on, the lines of the
//!   report are counted on, and its offsets are those of the whole text (`Writing::add_batch`);
//! - closed, it has the acknowledgments as they are, each mailbox with its envelopes, numbered after the acknowledgments, the report
//!   with its total, and the next counters, by one thread or by many (`Writing::close`, `Writing::close_by`);
//! - what was written of the interchanges of a text, closed, is their night (`writing_gives_the_night`).
//!
//! Source: X12.5, interchange; X12.6, functional group and transaction set; 999 guide (005010X231). What a night is, is own.
//!
//! Tests: `trial_command`, `trial_nights`, `trial_track`.
#![tactic(auto)]

mod closing;
mod laws;
mod night;
mod writing;

pub use laws::writing_gives_the_night;
pub use night::Night;
pub use writing::Writing;
