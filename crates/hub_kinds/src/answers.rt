use crate::faults::Faults;
use crate::items::Items;
use crate::lent::Lent;
use crate::set_codes::{GroupCode, GroupVerdict, SetCode, Verdict};

/// What an acknowledgment reads of a functional group (999 guide, AK1 and AK9), each element as it was
/// received.
#[derive(Debug, Drop)]
pub struct GroupAnswer<'a> {
    /// GS01.
    pub functional_id: Lent<'a>,
    /// GS06.
    pub control: Lent<'a>,
    /// GS08.
    pub version: Lent<'a>,
    /// GE01; empty without a GE.
    pub listed: Lent<'a>,
    /// What is wrong with the group, in the order of its codes.
    pub codes: Items<GroupCode>,
    /// The verdict on the group.
    pub verdict: GroupVerdict,
}

/// What an acknowledgment reads of a transaction set (999 guide, AK2 and IK5), each element as it was
/// received.
#[derive(Debug, Drop)]
pub struct SetAnswer<'a> {
    /// ST01.
    pub identifier: Lent<'a>,
    /// ST02.
    pub control: Lent<'a>,
    /// ST03; empty where it is absent.
    pub convention: Lent<'a>,
    /// The faults, in their order.
    pub faults: Faults<'a>,
    /// What is wrong with the set, in the order of its codes; five at most.
    pub codes: Items<SetCode>,
    /// The verdict on the set.
    pub verdict: Verdict,
}
