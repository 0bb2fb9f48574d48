//! The reader of a stream: reads that are interrupted are tried again, and what is read is held until it is dropped. Nothing here knows
//! what the bytes mean.
//!
//! Proved:
//! - `read_again` gives what a read gives, tries one that was interrupted again, at most `MOST_RETRIES` times in a row, and fails exactly
//!   where the source failed or was interrupted once more. So no run of interruptions that it goes through is longer than 1,000, or
//!   1,001 where it drops (`tried`, `given_up`). After a failure nothing is known of what the source has left;
//! - `Held::fill` holds this many more bytes of what the source declares, or all that were left of it; it says that the stream is too long
//!   only where the source declared more than 4,294,967,295 bytes, where it declares them (`long`), and where it gave more, which it counts
//!   (`many`); and that it can't be read only where the source failed;
//! - `Held::give_up` drops the first this many bytes, and keeps the others.
//!
//! Source: own.
//!
//! Tests: `trial_nights`, `trial_streams`.
#![tactic(auto)]

mod held;
mod retry;
mod source;

pub use held::{Held, StreamFault};
pub use retry::{MOST_RETRIES, ReadFault, read_again};
pub use source::{Source, SourceFault};
