ghost use Rattle.std.specs.Prelude.{◌≡◌};
ghost use Rattle.guide_tree.specs.Conditions.{has_label};

use crate::codes::Codes;
use crate::element::Element;
use hub_kinds::{Items, Text};

/// How the presence of data elements depends on one another (X12.6, relational conditions).
#[derive(Clone, Copy, Debug, PartialEq, Eq)]
pub enum Relation {
    /// `P`: if any is present, all are.
    Paired,
    /// `R`: at least one is present.
    Required,
    /// `E`: at most one is present.
    Exclusion,
    /// `C`: if the first is present, all others are.
    Conditional,
    /// `L`: if the first is present, at least one of the others is.
    ListConditional,
}

/// A relational condition over data elements of a segment, which are named by their positions from 1 on.
#[derive(Debug, Drop)]
pub struct Condition {
    pub relation: Relation,
    pub positions: Items<u32>,
}

/// The codes of which the data element at a position, from 1 on, has one, for a segment to fit (own).
#[derive(Debug, Drop)]
pub struct Pick {
    pub position: u32,
    pub codes: Codes,
}

/// A segment in the order of a transaction set (X12.6).
#[derive(Debug, Drop)]
pub struct Slot {
    /// The slot's number, from 1: nodes are numbered parents first. A checked guide has it; rows needn't.
    pub number: u32,
    /// The segment id.
    pub id: Text,
    /// The name that dependencies call it by (own).
    pub label: Option<Text>,
    /// The least use.
    pub min: u32,
    /// The greatest use.
    pub max: u32,
    pub picks: Items<Pick>,
    pub elements: Items<Element>,
    pub conditions: Items<Condition>,
}

impl Slot {
    /// Whether it has a label.
    pub fn has_label(&self, label: &[u8]) -> bool
        ensures { result ≡ has_label label.now self.now }
    {
        match &self.label {
            None => false,
            Some(own) => own.as_slice() == label,
        }
    }
}
