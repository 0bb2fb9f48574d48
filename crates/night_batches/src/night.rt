use hub_kinds::{Counters, Items, Text, Texts};
use mailbox::Woven;

/// What a night gives.
#[derive(Drop)]
pub struct Night {
    /// The acknowledgments of each partner, in the order of the setup (999 guide, 005010X231).
    pub acks: Texts,
    /// The mailbox of each partner, in the order of the setup (X12.5, interchange), as it was written: its parts are its text.
    pub boxes: Items<Woven>,
    /// The report: lines ended by LF (own).
    pub report: Text,
    /// The next counters of each partner, in the order of the setup.
    pub next: Items<Counters>,
}
