ghost use Rattle.std.specs.Prelude.{◌≡◌, ◌+◌, ◌<◌, ◌≤◌, ◌^◌, length, option_map, drop, [], IfSome};
ghost use Rattle.std.specs.List.{AllByRecursion};
ghost use Rattle.x12_segs.specs.Words.{elements_of};
ghost use Rattle.guide_tree.specs.Words.{or_else, view, nodes_view, fit_start, fit_starts, fit_again, fit_in, fit_next, fit_behind};
ghost use Rattle.loop_match.specs.Steps.{place_view, step_view, started, turned};

use crate::fit::fits;
use guide_tree::{Node, Slot};
use x12_segs::SegView;

/// One step down: a child, and which of its uses it is.
#[derive(Clone, Copy)]
pub struct Step {
    pub child: usize,
    pub use_no: u64,
}

/// Where a node begins: at its segment, or at a loop's first one.
#[derive(Clone, Copy)]
pub struct Start<'a> {
    pub into_loop: bool,
    pub slot: &'a Slot,
}

/// How a place continues to the next: at a depth, to a use of a child.
#[derive(Clone, Copy)]
pub struct Turn<'a> {
    pub depth: usize,
    pub child: usize,
    pub use_no: u64,
    pub into_loop: bool,
    pub slot: &'a Slot,
}

/// The start of a node, if the segment fits it.
pub fn start_of<'a>(node: &'a Node, seg: &SegView) -> Option<Start<'a>>
    ensures { option_map started result ≡ fit_start (elements_of seg.now) (view node.entry.now) }
{
    let (into_loop, slot) = match node {
        Node::Segment(slot) => (false, slot),
        Node::Loop(_, nodes) => match nodes.first() {
            Some(Node::Segment(slot)) => (true, slot),
            _ => return None,
        },
    };
    if fits(slot, seg) {
        Some(Start { into_loop, slot })
    } else {
        None
    }
}

/// The first child from `from` on whose start the segment fits.
fn start_after<'a>(nodes: &'a [Node], from: usize, seg: &SegView) -> Option<Turn<'a>>
    requires { from ≤ length nodes.now }
    ensures turn { option_map (turned []) result ≡ fit_starts (elements_of seg.now) from (nodes_view (drop from nodes.entry.now)) }
    ensures depth { IfSome result (λ t. t.depth ≡ 0) }
    ensures uses { IfSome result (λ t. t.use_no ≡ 0) }
{
    for k in from..nodes.len() {
        if let Some(start) = start_of(&nodes[k], seg) {
            return Some(Turn {
                depth: 0,
                child: k,
                use_no: 0,
                into_loop: start.into_loop,
                slot: start.slot,
            });
        }
    }
    None
}

/// The turn to a node's next use, if the segment fits its start; none of a loop's first node.
pub fn again<'a>(node: &'a Node, in_loop: bool, step: Step, seg: &SegView) -> Option<Turn<'a>>
    requires { step.use_no + 1 < 2 ^ 64 }
    ensures turn { option_map (turned []) result ≡ fit_again (elements_of seg.now) in_loop (step_view step) (view node.entry.now) }
    ensures depth { IfSome result (λ t. t.depth ≡ 0) }
    ensures uses { IfSome result (λ t. t.use_no ≡ step.use_no + 1) }
{
    if in_loop && step.child == 0 {
        return None;
    }
    match start_of(node, seg) {
        None => None,
        Some(start) => Some(Turn {
            depth: 0,
            child: step.child,
            use_no: step.use_no + 1,
            into_loop: start.into_loop,
            slot: start.slot,
        }),
    }
}

/// The turn from a child to itself or to a later one.
fn turn_here<'a>(
    nodes: &'a [Node],
    node: &'a Node,
    in_loop: bool,
    step: Step,
    seg: &SegView,
) -> Option<Turn<'a>>
    requires room { step.use_no + 1 < 2 ^ 64 }
    requires in_range { step.child < length nodes.now }
    ensures turn { option_map (turned []) result ≡ or_else
        (fit_again (elements_of seg.now) in_loop (step_view step) (view node.entry.now))
        (fit_starts (elements_of seg.now) (step.child + 1) (nodes_view (drop (step.child + 1) nodes.entry.now))) }
    ensures depth { IfSome result (λ t. t.depth ≡ 0) }
    ensures uses { IfSome result (λ t. t.use_no ≤ step.use_no + 1) }
{
    match again(node, in_loop, step, seg) {
        Some(turn) => Some(turn),
        None => start_after(nodes, step.child + 1, seg),
    }
}

/// The turn from a place inside a node.
#[cycle(turns)]
fn turn_inside<'a>(node: &'a Node, place: &[Step], uses: u64, seg: &SegView) -> Option<Turn<'a>>
    requires room { AllByRecursion (λ s. s.use_no < uses) place.now }
    requires few { uses + 1 < 2 ^ 64 }
    ensures turn { option_map (turned (place_view place.now)) result
        ≡ fit_in (elements_of seg.now) (view node.entry.now) (place_view place.now) }
    ensures depth { IfSome result (λ t. t.depth ≤ length place.now) }
    ensures uses { IfSome result (λ t. t.use_no ≤ uses) }
{
    match node {
        Node::Segment(_) => None,
        Node::Loop(_, nodes) => turn_among(nodes, true, place, uses, seg),
    }
}

/// The turn from a place among the nodes of one parent.
#[cycle(turns)]
fn turn_among<'a>(
    nodes: &'a [Node],
    in_loop: bool,
    place: &[Step],
    uses: u64,
    seg: &SegView,
) -> Option<Turn<'a>>
    requires room { AllByRecursion (λ s. s.use_no < uses) place.now }
    requires few { uses + 1 < 2 ^ 64 }
    ensures turn { option_map (turned (place_view place.now)) result
        ≡ fit_next (elements_of seg.now) in_loop (nodes_view nodes.entry.now) (place_view place.now) }
    ensures depth { IfSome result (λ t. t.depth ≤ length place.now) }
    ensures uses { IfSome result (λ t. t.use_no ≤ uses) }
{
    let (step, rest) = place.split_first()?;
    if step.child >= nodes.len() {
        return None;
    }
    let node = &nodes[step.child];
    match turn_inside(node, rest, uses, seg) {
        Some(turn) => Some(Turn {
            depth: turn.depth + 1,
            ..turn
        }),
        None => turn_here(nodes, node, in_loop, *step, seg),
    }
}

/// The turn from the last place, or from the beginning, to the place that the segment is given.
pub(crate) fn turn_from<'a>(
    nodes: &'a [Node],
    last: &[Step],
    uses: u64,
    seg: &SegView,
) -> Option<Turn<'a>>
    requires room { AllByRecursion (λ s. s.use_no < uses) last.now }
    requires few { uses + 1 < 2 ^ 64 }
    ensures turn { option_map (turned (place_view last.now)) result
        ≡ fit_behind (elements_of seg.now) (nodes_view nodes.entry.now) (place_view last.now) }
    ensures depth { IfSome result (λ t. t.depth ≤ length last.now) }
    ensures uses { IfSome result (λ t. t.use_no ≤ uses) }
{
    if last.is_empty() {
        start_after(nodes, 0, seg)
    } else {
        turn_among(nodes, false, last, uses, seg)
    }
}
