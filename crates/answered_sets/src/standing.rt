use hub_kinds::{GroupVerdict, Items, Verdict};

/// What the check of a functional group left (999 guide, AK9).
#[derive(Debug, Drop)]
pub struct GroupStanding {
    /// Whether it has no code (AK905).
    pub clear: bool,
    /// Its verdict (AK901).
    pub verdict: GroupVerdict,
    /// How many of its sets are accepted (AK904).
    pub accepted: u64,
    /// The verdict on each of its sets (IK501), in their order.
    pub verdicts: Items<Verdict>,
}
