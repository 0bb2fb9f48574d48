use hub_kinds::{ElementCode, SegmentCode};

/// A rule of a guide that is tried: what a set that breaks it alone is reported with.
#[derive(Clone, Copy, Debug)]
pub struct Rule {
    /// What is wrong with the segment (IK304).
    pub code: SegmentCode,
    /// The number of the guide's slot; 0 for a segment that has none.
    pub slot: u32,
    /// What is wrong with the element (IK403), if it is a rule of an element.
    pub element: Option<ElementCode>,
}
