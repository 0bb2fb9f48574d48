use crate::ends::Ends;
use hub_kinds::Faults;

/// A set that was gone over: its ends, and what is wrong with its segments.
#[derive(Drop)]
pub struct WalkedSet<'a> {
    pub ends: Ends<'a>,
    pub faults: Faults<'a>,
}
