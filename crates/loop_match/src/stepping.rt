ghost use Rattle.std.specs.Prelude.{◌≡◌, ◌++◌, ◌+◌, ◌<◌, ◌^◌, OnOk};
ghost use Rattle.std.specs.List.{AllByRecursion};
ghost use Rattle.guide_tree.specs.Words.{stepped_in, view, nodes_view};
ghost use Rattle.loop_match.specs.Steps.{place_view};
ghost use Rattle.loop_match.specs.Leaving.{stepped_among};

use crate::found::Found;
use crate::leaving::{ended_in, entered};
use crate::next::Step;
use guide_tree::Node;
use hub_kinds::NoMemory;

/// From a place in a node to one that follows it in the same node.
#[cycle(steps)]
pub(crate) fn stepped_in<'a>(
    found: &mut Found<'a>,
    at: u64,
    node: &'a Node,
    last: &[Step],
    next: &[Step],
) -> Result<(), NoMemory>
    requires { AllByRecursion (λ s. s.use_no + 1 < 2 ^ 64) last.now }
    ensures { OnOk result (found.new ≡ found.old ++ stepped_in at (view node.now) (place_view last.now) (place_view next.now)) }
{
    match node {
        Node::Segment(_) => Ok(()),
        Node::Loop(head, nodes) => stepped(found, at, head.id.as_slice(), nodes, last, next),
    }
}

/// From a place among the nodes of one parent to one that follows it.
#[cycle(steps)]
pub(crate) fn stepped<'a>(
    found: &mut Found<'a>,
    at: u64,
    outer: &'a [u8],
    nodes: &'a [Node],
    last: &[Step],
    next: &[Step],
) -> Result<(), NoMemory>
    requires { AllByRecursion (λ s. s.use_no + 1 < 2 ^ 64) last.now }
    ensures { OnOk result (found.new
        ≡ found.old ++ stepped_among at outer.now (nodes_view nodes.now) (place_view last.now) (place_view next.now)) }
{
    let Some((from, rest)) = last.split_first() else {
        return Ok(());
    };
    let Some((to, next_rest)) = next.split_first() else {
        return Ok(());
    };
    if from.child >= nodes.len() {
        return Ok(());
    }
    if to.child < from.child {
        return Ok(());
    }
    let node = &nodes[from.child];
    if to.child == from.child {
        if to.use_no == from.use_no {
            return stepped_in(found, at, node, rest, next_rest);
        }
        ended_in(found, at, node, rest)?;
        return found.past(at, outer, to.use_no, node);
    }
    ended_in(found, at, node, rest)?;
    found.too_few(at, outer, from.use_no + 1, node)?;
    entered(found, at, outer, nodes, from.child + 1, *to)
}
