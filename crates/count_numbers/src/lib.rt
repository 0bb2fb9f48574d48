//! Control numbers: which numbers a partner's interchanges, functional groups and transaction sets get in a night, and from which
//! the next night continues.
//!
//! Proved:
//! - `num` is the number that comes so far after a first one, where 1 follows 999,999,999;
//! - a `Tally` says of what happens for a partner, in the order of the text, how many acknowledgments there are, how many of them
//!   have a group, and the runs of delivered sets that go into one group;
//! - tallies join like the stretches that they are of (`tally_laws`), so that it doesn't matter where a text is cut; a partner's
//!   `Tally` and the `Tallies` of all partners are `Piecewise`, so what `env_marks::gather` makes of those of all pieces is that
//!   of the whole;
//! - a tally is enough: delivered interchanges and their groups follow from its runs as they do from the sets
//!   themselves, and so do the number of these groups and that of sets, where there are fewer than 2^64 (`runs_suffice`);
//! - `numbers_for` gives each partner's first numbers and its next counters; of fewer than 2^64 acknowledgments and sets these are
//!   the numbers after that many (`numbers_are_counted`).
//!
//! Source: X12.5, interchange control number (ISA13); X12.6, functional group, group control number (GS06) and transaction set
//! control number (ST02); how they are counted is own.
//!
//! Tests: `trial_texts`.
#![tactic(auto)]

mod entry;
mod laws;
mod number;
mod numbering;
mod piecewise;
mod run;
mod tallies;
mod tally;

pub use entry::{Entry, PartnerEntry};
pub use laws::{numbers_are_counted, runs_suffice, tally_laws};
pub use number::num;
pub use numbering::{Numbers, PartnerNumbers, interchange_count, numbers_for};
pub use run::{Run, RunKey};
pub use tallies::Tallies;
pub use tally::Tally;
