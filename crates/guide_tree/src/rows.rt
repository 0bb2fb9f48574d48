use crate::codes::Codes;
use crate::node::Node;
use hub_kinds::{ElementCode, Items, SegmentCode, Text, Texts};

/// What a guide says of itself.
#[derive(Debug)]
pub struct GuideHead {
    pub name: Text,
    /// The functional identifier code, GS01.
    pub group: Text,
    /// The transaction set identifier code, ST01.
    pub set: Text,
    /// The version, release and industry identifier code, GS08.
    pub version: Text,
    /// The implementation convention reference, ST03.
    pub convention: Option<Text>,
    /// The segment ids that are known beside those of the nodes.
    pub dictionary: Texts,
    /// The segment faults that are accepted with errors noted.
    pub tolerate_segment: Items<SegmentCode>,
    /// The element faults that are accepted with errors noted.
    pub tolerate_element: Items<ElementCode>,
}

impl Drop for GuideHead {
    fn drop(self) {
        let GuideHead {
            name: _,
            group: _,
            set: _,
            version: _,
            convention: _,
            dictionary: _,
            tolerate_segment: _,
            tolerate_element: _,
        } = self;
    }
}

/// A level of the hierarchy (X12.6, HL03) and the level of its parent; none for a root.
#[derive(Debug, Drop)]
pub struct HlPair {
    pub parent: Option<Text>,
    pub child: Text,
}

/// What the HL segments of a set keep to (own).
#[derive(Debug, Drop)]
pub struct HlRule {
    pub pairs: Items<HlPair>,
    /// Whether HL01 counts from 1.
    pub sequential: bool,
}

/// Whether a dependency asks for its target or bans it.
#[derive(Clone, Copy, Debug, PartialEq, Eq)]
pub enum DependencyKind {
    Need,
    Ban,
}

/// Where a use of a slot has one of the codes in an element, another slot, or an element of it, is needed or
/// banned (own). Slots are named by their labels, elements by their positions from 1 on.
#[derive(Debug, Drop)]
pub struct Dependency {
    pub kind: DependencyKind,
    pub slot: Text,
    pub at: u32,
    pub codes: Codes,
    pub target: Text,
    /// The target's element; 0 for the whole slot.
    pub element: u32,
}

/// A guide that is to be checked.
#[derive(Debug)]
pub struct GuideRows {
    pub head: GuideHead,
    pub hl: Option<HlRule>,
    pub depends: Items<Dependency>,
    pub nodes: Vec<Node>,
}

impl Drop for GuideRows {
    fn drop(self) {
        let GuideRows {
            head: _,
            hl: _,
            depends: _,
            nodes: _,
        } = self;
    }
}
