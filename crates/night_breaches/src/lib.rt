//! Whether nights continue from one another: what breaks a rule, by what is kept of each night.
//!
//! Proved:
//! - `breaches` gives just what the definition says, night by night (`found`);
//! - it gives none exactly if the nights are sound (`none`): each continues from those before it (no set is delivered to a receiver on two
//!   nights, but one that the later night was asked for again; the numbers of each address begin where the last night that knows it left
//!   them), each file has the sum that was listed, no moment is before that of the night before, and none is after the limit;
//! - what it gives is broken: it names nights that are there in this order, and what they have breaks that rule (`each`);
//! - sound nights are nights of `hub_ledger` that continue (`sound_nights_go_on`);
//! - `last_breach` says exactly whether the last night is another one than the one that is named last;
//! - `first_delivery` gives exactly the first of a list of sets that an older night delivered, and the newest night that did.
//!
//! Keys and addresses are found in ordered maps, so the cost is that of sorting them.
//!
//! Source: own; X12.5, interchange control number (ISA13); X12.6, group and set control numbers (GS06, ST02).
#![tactic(auto)]

mod breach;
mod checked;
mod deliveries;
mod known;
mod laws;
mod rules;

pub use breach::{
    Breach, FileFault, LastNight, LateMoment, MomentBack, NumberBreak, SecondDelivery, WrongFile,
};
pub use checked::{breaches, last_breach};
pub use deliveries::{Deliveries, Delivery, deliveries_of, first_delivery};
pub use laws::sound_nights_go_on;
