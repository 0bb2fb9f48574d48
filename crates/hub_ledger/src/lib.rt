//! What a hub keeps of its nights, and how one night continues from those before it. Plain values and theorems: the calls do nothing.
//!
//! Proved, of every list of events (a night is run, it is written down, it may be sent, the hub stops), in any order and number:
//! - no set is delivered to a receiver on two nights, but one that the later night was asked for again (`delivers_once`); so if no night
//!   was, none is (`delivers_new`);
//! - the numbers of what an address is sent, over all nights, go up by one from a first, and after 999,999,999 comes 1: of
//!   interchanges, groups and sets, whatever the address's partner is called (`numbers_go_on`);
//! - what may be sent is written down (`shows_committed`).
//!
//! Proved of nights of which each continues from those before it: no set is delivered to a receiver twice, but one that was asked for
//! again, and the numbers of an address have no gap, if those of each night have none (`nights_that_go_on`). `night_ledger` finds out
//! whether nights continue.
//!
//! Source: X12.5, interchange control number (ISA13); X12.6, group and set control numbers (GS06, ST02). That they continue from night to
//! night, and what is kept of a night, is own.
#![tactic(auto)]

mod entry;
mod laws;

pub use entry::{AddressNumbers, FileSum, NightEntry};
pub use laws::{delivers_new, delivers_once, nights_that_go_on, numbers_go_on, shows_committed};
