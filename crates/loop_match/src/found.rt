ghost use Rattle.std.specs.Prelude.{◌≡◌, ◌++◌, [], ◌∷◌, OnOk};
ghost use Rattle.guide_tree.specs.Words.{min_of, max_of, first_id, past_code, few_code, loop_of, fault_of, missing, too_few, past};
ghost use Rattle.guide_tree.specs.Words.{stray_fault, view, guide_of};
ghost use Rattle.x12_segs.specs.Words.{elements_of};

use crate::next_place::NextPlace;
use guide_tree::Node;
use hub_kinds::{Fault, Faults, Lent, NO_NUMBER, NoMemory, SegmentCode};
use std::alloc::Global;
use std::marker::Model;
use x12_segs::SegView;

/// The structural faults that were found so far, in the order in which they were found. Contracts see their list.
#[derive(Drop)]
pub struct Found<'a> {
    faults: Faults<'a>,
}

impl<'a> Model for Found<'a> {
    ghost use Rattle.std.specs.Prelude.{List};
    ghost use Rattle.hub_kinds.specs.declared.fault.Fault.{Fault};

    ghost Value = { List Fault };

    ghost view = { λ f. f.faults };
}

impl<'a> Found<'a> {
    /// No fault.
    pub fn new(alloc: Global) -> Found<'a>
        ensures { result ≡ [] }
    {
        Found {
            faults: Faults::new(alloc),
        }
    }

    /// Adds a fault of a node that is in the loop with the id `outer`.
    fn add(
        &mut self,
        at: u64,
        outer: &'a [u8],
        code: SegmentCode,
        node: &'a Node,
    ) -> Result<(), NoMemory>
        ensures { OnOk result (self.new ≡ self.old ++ fault_of at outer.now code (view node.now) ∷ []) }
    {
        let fault = Fault {
            position: at,
            id: Lent::new(first_id(node)),
            loop_id: Lent::new(loop_of(outer, node)),
            code,
            slot: node.number(),
            elem: None,
        };
        self.faults.push(fault)?;
        Ok(())
    }

    /// A node that is needed has no use.
    pub fn missing(&mut self, at: u64, outer: &'a [u8], node: &'a Node) -> Result<(), NoMemory>
        ensures { OnOk result (self.new ≡ self.old ++ missing at outer.now (view node.now)) }
    {
        if 1 <= min_of(node) {
            self.add(at, outer, SegmentCode::RequiredSegmentMissing, node)?;
        }
        Ok(())
    }

    /// A node has some uses, but fewer than the least.
    pub fn too_few(
        &mut self,
        at: u64,
        outer: &'a [u8],
        uses: u64,
        node: &'a Node,
    ) -> Result<(), NoMemory>
        ensures { OnOk result (self.new ≡ self.old ++ too_few at outer.now uses (view node.now)) }
    {
        if uses < u64::from(min_of(node)) {
            self.add(at, outer, few_code(node), node)?;
        }
        Ok(())
    }

    /// A node has a use past the greatest.
    pub fn past(
        &mut self,
        at: u64,
        outer: &'a [u8],
        use_no: u64,
        node: &'a Node,
    ) -> Result<(), NoMemory>
        ensures { OnOk result (self.new ≡ self.old ++ past at outer.now use_no (view node.now)) }
    {
        if u64::from(max_of(node)) <= use_no {
            self.add(at, outer, past_code(node), node)?;
        }
        Ok(())
    }

    /// A segment has no place.
    pub fn stray<'g, N: NextPlace<'g>>(
        &mut self,
        at: u64,
        next: &N,
        seg: &SegView<'a>,
    ) -> Result<(), NoMemory>
        ensures { OnOk result (self.new
            ≡ self.old ++ stray_fault (guide_of (N.guide next.now)) at (elements_of seg.now) ∷ []) }
    {
        let fault = Fault {
            position: at,
            id: Lent::new(seg.id()),
            loop_id: Lent::new(b""),
            code: next.stray_code(seg),
            slot: NO_NUMBER,
            elem: None,
        };
        self.faults.push(fault)?;
        Ok(())
    }

    /// The faults, as a list.
    pub fn into_faults(self) -> Faults<'a>
        ensures { result ≡ self.entry }
    {
        self.faults
    }
}

/// The id that a node begins with: its own, or that of a loop's first segment.
pub fn first_id(node: &Node) -> &[u8]
    ensures { result.now ≡ first_id (view node.entry.now) }
{
    match node {
        Node::Segment(slot) => slot.id.as_slice(),
        Node::Loop(_, nodes) => match nodes.first() {
            Some(Node::Segment(slot)) => slot.id.as_slice(),
            _ => b"",
        },
    }
}

fn loop_of<'a>(outer: &'a [u8], node: &'a Node) -> &'a [u8]
    ensures { result.now ≡ loop_of outer.entry.now (view node.entry.now) }
{
    match node {
        Node::Segment(_) => outer,
        Node::Loop(head, _) => head.id.as_slice(),
    }
}

/// The least use of a node.
pub fn min_of(node: &Node) -> u32
    ensures { result ≡ min_of (view node.now) }
{
    match node {
        Node::Segment(slot) => slot.min,
        Node::Loop(head, _) => head.min,
    }
}

/// The greatest use of a node.
pub fn max_of(node: &Node) -> u32
    ensures { result ≡ max_of (view node.now) }
{
    match node {
        Node::Segment(slot) => slot.max,
        Node::Loop(head, _) => head.max,
    }
}

fn past_code(node: &Node) -> SegmentCode
    ensures { result ≡ past_code (view node.now) }
{
    if max_of(node) == 0 {
        return SegmentCode::NotUsedPresent;
    }
    match node {
        Node::Segment(_) => SegmentCode::SegmentTooOften,
        Node::Loop(_, _) => SegmentCode::LoopTooOften,
    }
}

fn few_code(node: &Node) -> SegmentCode
    ensures { result ≡ few_code (view node.now) }
{
    match node {
        Node::Segment(_) => SegmentCode::SegmentTooSeldom,
        Node::Loop(_, _) => SegmentCode::LoopTooSeldom,
    }
}
