//! The night that a hub makes of its files, of what is kept of its older nights and of an input, all of it in memory.
//!
//! Proved:
//! - numbers go by address, and not by name: an address begins where the last night that knows it left it, whatever its partner was called
//!   then; one that no night knows begins with the numbers of its partner's name in a first counters file, or else with 1, 1 and 1
//!   (`begun_counters`);
//! - a night that is given is the run of the definition by just these bytes: the setup file, the guides, and the counters file that is
//!   given with it, which is read as the rows of `begun_counters`. Its files in `out/` and its status are the run's, its total is the last
//!   line of the run's report, its table is the definition's, and what comes next for each address is what the run left (`tonight`,
//!   `night`). How the work is shared changes nothing of it;
//! - if none is given, the input is too long, exactly (`too_long`), or a file is the first that is refused, or the files are refused
//!   together (`stopped`).
//!
//! Not claimed: when the system refuses memory or a thread.
//!
//! Addresses and names are found in ordered maps, so the cost of the counters is that of sorting them.
//!
//! Source: own; X12.5, interchange control number (ISA13); X12.6, group and set control numbers (GS06, ST02); 999 guide (005010X231).
#![tactic(auto)]

mod begun;
mod call;
mod given;
mod made;
mod night;
mod numbers;
mod out_files;
mod run;
mod stopped;

pub use begun::begun_counters;
pub use call::{Call, HubFiles};
pub use night::Tonight;
pub use run::tonight;
pub use stopped::Stopped;
