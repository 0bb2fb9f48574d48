//! The hub's setup: its partners, their guides and delimiters, and where sets go, written in TOML; and the counters that go
//! from night to night.
//!
//! Proved:
//! - `read_setup` and `read_counters` refuse bytes as no TOML exactly where `toml` reads no table from them, out of memory
//!   aside; else the answer is a function of the table: its first fault, or the rows that it writes;
//! - `Setup::build` is the setup that rows, counters and guides make, exactly where nothing of them is refused, and else the
//!   first refusal, in the order of the refusals' numbers, at the least row that is at fault;
//! - every setup is sound: each partner's cap, counters, delimiters and names are what they must be, and each route leads to
//!   its partners, to none of them twice;
//! - `Setup::envelope_to` is the envelope from the hub to a partner, and its interchange header can be read again;
//! - `is_id`, `byte_of`, `may_delimit`, `may_end`, `is_counter` and `is_cap` are exactly the tests of a row's texts and numbers;
//! - `Setup::sender_of`, `route_of`, `has_group`, `has_version` and `guide_of` look up the rows;
//! - `Setup::counters_text` is the counters file of the next night, in version 2; version 1 is still read.
//!
//! What is given twice is found by sorting and names by an ordered map, so that the cost of a setup follows its bytes, but
//! for a logarithm. A partner is found by its qualifier and id and a route by its code in ordered maps; only a partner's own
//! guides are gone over.
//!
//! Source: own; X12.5, interchange sender and receiver ids and delimiters; X12.6, functional group header.
//!
//! Tests: `trial_command`, `trial_nights`, `trial_track`.
#![tactic(auto)]

mod build;
mod counters_file;
mod counters_text;
mod delimiters;
mod envelopes;
mod ids;
mod judge;
mod keyed;
mod keys;
mod lookup;
mod names;
mod partner;
mod receivers;
mod row;
mod rows;
mod setup;
mod setup_fault;
mod setup_file;
mod told;
mod twice;
mod values;

pub use counters_file::read_counters;
pub use delimiters::{byte_of, may_delimit, may_end};
pub use ids::is_id;
pub use judge::{is_cap, is_counter};
pub use partner::{Partner, Route};
pub use receivers::MOST_RECEIVERS;
pub use rows::{CounterRow, CounterRows, HubRow, PartnerRow, RouteRow, SetupRows, Usage};
pub use setup::Setup;
pub use setup_fault::{GuidesOwner, IdOwner, SetupFault};
pub use setup_file::read_setup;
pub use toml_keys::FileFault;
