use hub_kinds::{Items, Lent};

/// What is reported of a segment in error (999 guide, IK3), as written.
#[derive(Debug, Drop)]
pub struct SegmentTold<'a> {
    /// IK301: its id.
    pub id: Lent<'a>,
    /// IK302: its position in the set.
    pub position: Lent<'a>,
    /// IK303: the innermost loop that it is in; empty where there is none.
    pub loop_id: Lent<'a>,
    /// IK304: what is wrong.
    pub code: Lent<'a>,
}

/// What is reported of an element in error (999 guide, IK4), as written.
#[derive(Debug, Drop)]
pub struct ElementTold<'a> {
    /// IK401, its first component: the element's number.
    pub element: Lent<'a>,
    /// IK401, its second component: the component's number; empty where none is shown.
    pub component: Lent<'a>,
    /// IK401, its third component: the repetition's number; empty where none is shown.
    pub repetition: Lent<'a>,
    /// IK402: the element's reference number.
    pub reference: Lent<'a>,
    /// IK403: what is wrong.
    pub code: Lent<'a>,
    /// IK404: a copy of it; empty where none is shown.
    pub copy: Lent<'a>,
}

/// What is reported of a set's segments and elements (999 guide, IK3 and IK4).
#[derive(Debug, Drop)]
pub enum NoteTold<'a> {
    /// An IK3.
    OfSegment(SegmentTold<'a>),
    /// An IK4, after this IK3.
    OfElement(SegmentTold<'a>, ElementTold<'a>),
}

/// What is reported of a set (999 guide, AK2 to IK5), as written.
#[derive(Debug, Drop)]
pub struct SetTold<'a> {
    /// In which interchange of the text it is reported, counted from 1.
    pub interchange: u64,
    /// AK101: the group's functional identifier.
    pub functional_id: Lent<'a>,
    /// AK102: the group's control number.
    pub group_control: Lent<'a>,
    /// AK201: the set's identifier.
    pub identifier: Lent<'a>,
    /// AK202: its control number.
    pub control: Lent<'a>,
    /// What is reported of its segments and elements, in its order.
    pub notes: Items<NoteTold<'a>>,
    /// IK501: the verdict.
    pub code: Lent<'a>,
    /// IK502 to IK506: what is wrong, without empty ones.
    pub codes: Items<Lent<'a>>,
}

/// What is reported of a group (999 guide, AK1 and AK9), as written.
#[derive(Debug, Drop)]
pub struct GroupTold<'a> {
    /// In which interchange of the text it is reported, counted from 1.
    pub interchange: u64,
    /// AK101: its functional identifier.
    pub functional_id: Lent<'a>,
    /// AK102: its control number.
    pub control: Lent<'a>,
    /// AK901: the verdict.
    pub code: Lent<'a>,
    /// AK902: how many sets its trailer lists.
    pub listed: Lent<'a>,
    /// AK903: how many sets were received.
    pub received: Lent<'a>,
    /// AK904: how many were accepted.
    pub accepted: Lent<'a>,
    /// AK905 to AK909: what is wrong, without empty ones.
    pub codes: Items<Lent<'a>>,
}

/// What is reported of an interchange (X12.5, TA1), as written.
#[derive(Debug, Drop)]
pub struct Ta1Told<'a> {
    /// In which interchange of the text it is reported, counted from 1.
    pub interchange: u64,
    /// TA101: the number of the interchange that it answers.
    pub control: Lent<'a>,
    /// TA102: its date.
    pub date: Lent<'a>,
    /// TA103: its time.
    pub time: Lent<'a>,
    /// TA104: whether it is refused.
    pub code: Lent<'a>,
    /// TA105: why.
    pub note: Lent<'a>,
}

/// What an acknowledgment reports.
#[derive(Debug, Drop)]
pub enum Told<'a> {
    /// About an interchange.
    OfInterchange(Ta1Told<'a>),
    /// About a set.
    OfSet(SetTold<'a>),
    /// About a group.
    OfGroup(GroupTold<'a>),
}
