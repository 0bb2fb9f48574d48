ghost use Rattle.std.specs.Prelude.{◌≡◌, ◌+◌, ◌<◌, ◌≤◌, ◌^◌, [], length, option_map, drop, slice_index_or, true, IfNone, IfSome};
ghost use Rattle.std.specs.Prelude.{MatchOption};
ghost use Rattle.std.specs.List.{AllByRecursion};
ghost use Rattle.x12_segs.specs.Words.{elements_of};
ghost use Rattle.guide_tree.specs.declared.node.Loop.{Loop};
ghost use Rattle.guide_tree.specs.declared.slot.Slot.{Slot};
ghost use Rattle.guide_tree.specs.Words.{Place, Segment, segment, loop, or_else, view, nodes_view, fit_starts};
ghost use Rattle.guide_tree.specs.Words.{fit_again, fit_in, fit_next, fit_behind};
ghost use Rattle.loop_match.specs.Steps.{place_view, step_view, turned};
ghost use Rattle.guide_fast.specs.IdNumber.{HasNumber};
ghost use Rattle.guide_fast.specs.Tables.{trees_in, HasTables, HasTablesIn};

use crate::children::Children;
use crate::id_number::number_of;
use crate::start::again_here;
use guide_tree::Node;
use loop_match::{Step, Turn};
use x12_segs::SegView;

/// The turn from a child to itself or to a later one.
#[inline]
fn turn_here<'g>(
    here: &Children<'g>,
    node: &'g Node,
    in_loop: bool,
    step: Step,
    number: u32,
    seg: &SegView,
) -> Option<Turn<'g>>
    requires number { HasNumber (elements_of seg.now) number }
    requires room { step.use_no + 1 < 2 ^ 64 }
    requires in_range { step.child < length here.now }
    requires node { node.now ≡ slice_index_or here.now step.child node.now }
    ensures turn { option_map (turned []) result ≡ or_else
        (fit_again (elements_of seg.now) in_loop (step_view step) (view node.entry.now))
        (fit_starts (elements_of seg.now) (step.child + 1) (nodes_view (drop (step.child + 1) here.now))) }
    ensures depth { IfSome result (λ t. t.depth ≡ 0) }
    ensures uses { IfSome result (λ t. t.use_no ≤ step.use_no + 1) }
{
    match again_here(node, here.number_at(step.child), in_loop, step, number, seg) {
        Some(turn) => Some(turn),
        None => here.start_numbered_behind(step.child, number, seg),
    }
}

/// The child with a place among a parent's nodes.
pub(crate) fn node_at<'g>(
    tables: &[Children<'g>],
    here: &Children<'g>,
    child: usize,
) -> Option<&'g Node>
    requires { HasTables (trees_in tables.now) (nodes_view here.now) }
    ensures tables { IfSome result (λ n. HasTablesIn (trees_in tables.now) (view n.now)) }
    ensures outside { IfNone result (length here.now ≤ child) }
    ensures inside { IfSome result (λ n. child < length here.now) }
    ensures node { IfSome result (λ n. n.now ≡ slice_index_or here.now child n.now) }
{
    let nodes = here.nodes();
    if child >= nodes.len() {
        return None;
    }
    Some(&nodes[child])
}

/// The table of a loop's nodes; none of a segment.
pub(crate) fn table_of<'t, 'g>(tables: &'t [Children<'g>], node: &Node) -> Option<&'t Children<'g>>
    requires { HasTablesIn (trees_in tables.now) (view node.now) }
    ensures tables { IfSome result (λ c. HasTables (trees_in tables.entry.now) (nodes_view c.now)) }
    ensures shape { MatchOption result ((x : Slot) × (view node.now ≡ segment x))
        (λ c. (l : Loop) × (view node.now ≡ loop l (nodes_view c.now))) }
    ensures fit { (s : Segment) (q : Place) → MatchOption result (fit_in s (view node.now) q ≡ None)
        (λ c. fit_in s (view node.now) q ≡ fit_next s true (nodes_view c.now) q) }
{
    match node {
        Node::Segment(_) => None,
        Node::Loop(head, _) => tables.get(head.number as usize),
    }
}

/// The turn from a place among the nodes of one parent.
fn turn_among<'g>(
    tables: &[Children<'g>],
    here: &Children<'g>,
    in_loop: bool,
    place: &[Step],
    uses: u64,
    number: u32,
    seg: &SegView,
) -> Option<Turn<'g>>
    requires number { HasNumber (elements_of seg.now) number }
    requires room { AllByRecursion (λ s. s.use_no < uses) place.now }
    requires few { uses + 1 < 2 ^ 64 }
    requires tables { HasTables (trees_in tables.now) (nodes_view here.now) }
    ensures turn { option_map (turned (place_view place.now)) result
        ≡ fit_next (elements_of seg.now) in_loop (nodes_view here.now) (place_view place.now) }
    ensures depth { IfSome result (λ t. t.depth ≤ length place.now) }
    ensures uses { IfSome result (λ t. t.use_no ≤ uses) }
{
    let (step, rest) = place.split_first()?;
    let node = node_at(tables, here, step.child)?;
    match table_of(tables, node) {
        None => turn_here(here, node, in_loop, *step, number, seg),
        Some(inner) => match turn_among(tables, inner, true, rest, uses, number, seg) {
            None => turn_here(here, node, in_loop, *step, number, seg),
            Some(turn) => Some(Turn {
                depth: turn.depth + 1,
                ..turn
            }),
        },
    }
}

/// The turn from the last place, or from the beginning, to the place that the segment is given, by the tables and the first of them.
pub(crate) fn turn_behind<'g>(
    tables: &[Children<'g>],
    top: &Children<'g>,
    last: &[Step],
    uses: u64,
    seg: &SegView,
) -> Option<Turn<'g>>
    requires room { AllByRecursion (λ s. s.use_no < uses) last.now }
    requires few { uses + 1 < 2 ^ 64 }
    requires tables { HasTables (trees_in tables.now) (nodes_view top.now) }
    ensures turn { option_map (turned (place_view last.now)) result
        ≡ fit_behind (elements_of seg.now) (nodes_view top.now) (place_view last.now) }
    ensures depth { IfSome result (λ t. t.depth ≤ length last.now) }
    ensures uses { IfSome result (λ t. t.use_no ≤ uses) }
{
    let number = number_of(seg);
    if last.is_empty() {
        top.start_numbered(0, number, seg)
    } else {
        turn_among(tables, top, false, last, uses, number, seg)
    }
}
