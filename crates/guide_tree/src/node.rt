ghost use Rattle.std.specs.Prelude.{◌≡◌};
ghost use Rattle.guide_tree.specs.Tree.{node_number};
ghost use Rattle.guide_tree.specs.View.{view};

use crate::slot::Slot;
use hub_kinds::Text;

/// A loop in the order of a transaction set (X12.6).
#[derive(Debug, Drop)]
pub struct Loop {
    /// The slot's number, from 1: nodes are numbered parents first. A checked guide has it; rows needn't.
    pub number: u32,
    /// The loop id.
    pub id: Text,
    /// The least number of repetitions.
    pub min: u32,
    /// The greatest number of repetitions.
    pub max: u32,
}

/// A segment of a transaction set, or a loop of nodes.
#[derive(Debug, Drop)]
pub enum Node {
    Segment(Slot),
    Loop(Loop, Vec<Node>),
}

impl Node {
    /// The number of its slot, or of its loop.
    pub fn number(&self) -> u32
        ensures { result ≡ node_number (view self.now) }
    {
        match self {
            Node::Segment(slot) => slot.number,
            Node::Loop(head, _) => head.number,
        }
    }
}
