//! The run of a complete night: a text, a setup and a moment in; each partner's acknowledgments, mailbox and next counters, and the
//! report out. This crate composes what the crates below it promise.
//!
//! Proved:
//! - each run gives the night of the definition, and partners read it so (`IsNight` of `night_definition`): each partner's
//!   acknowledgments, byte for byte, its mailbox, whose interchanges are numbered after them, its next counters, and the report;
//! - it refuses a text as too long exactly over 4,294,967,295 bytes (`within_limit`).
//!
//! X12.5, interchange; X12.6, functional group and transaction set; 999 guide (005010X231).
//!
//! Tests: `trial_nights`.
#![tactic(auto)]

mod plain;
mod run_fault;
mod shared;
mod stream;
mod writing;

pub use hub_kinds::within_limit;
pub use night_batches::Night;
pub use night_report::is_clean;
pub use plain::run_plain;
pub use run_fault::RunFault;
pub use shared::run_night;
pub use stream::run_stream;
pub use stream_read::{Source, SourceFault};
pub use worker_pool::{Gate, OpenGate};
