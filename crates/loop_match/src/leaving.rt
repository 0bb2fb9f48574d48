ghost use Rattle.std.specs.Prelude.{◌≡◌, ◌++◌, ◌+◌, ◌-◌, ◌<◌, ◌≤◌, ◌^◌, drop, length, OnOk};
ghost use Rattle.std.specs.List.{AllByRecursion};
ghost use Rattle.guide_tree.specs.Words.{unused, entered, ended_in, view, nodes_view};
ghost use Rattle.loop_match.specs.Steps.{place_view};
ghost use Rattle.loop_match.specs.Leaving.{ended_among};

use crate::found::Found;
use crate::next::Step;
use guide_tree::Node;
use hub_kinds::NoMemory;

/// Nothing of the nodes from `from` on comes.
pub(crate) fn unused<'a>(
    found: &mut Found<'a>,
    at: u64,
    outer: &'a [u8],
    nodes: &'a [Node],
    from: usize,
) -> Result<(), NoMemory>
    ensures { OnOk result (found.new ≡ found.old ++ unused at outer.now (nodes_view (drop from nodes.now))) }
{
    for k in from..nodes.len() {
        found.missing(at, outer, &nodes[k])?;
    }
    Ok(())
}

/// The nodes from `from` on up to `child` are passed over, and the child has a use.
pub(crate) fn entered<'a>(
    found: &mut Found<'a>,
    at: u64,
    outer: &'a [u8],
    nodes: &'a [Node],
    from: usize,
    to: Step,
) -> Result<(), NoMemory>
    requires { from ≤ to.child }
    ensures { OnOk result (found.new
        ≡ found.old ++ entered at outer.now (nodes_view (drop from nodes.now)) (to.child - from) to.use_no) }
{
    for k in from..nodes.len() {
        if k == to.child {
            return found.past(at, outer, to.use_no, &nodes[k]);
        }
        found.missing(at, outer, &nodes[k])?;
    }
    Ok(())
}

/// After a place in a node its children end.
#[cycle(ends)]
pub(crate) fn ended_in<'a>(
    found: &mut Found<'a>,
    at: u64,
    node: &'a Node,
    place: &[Step],
) -> Result<(), NoMemory>
    requires { AllByRecursion (λ s. s.use_no + 1 < 2 ^ 64) place.now }
    ensures { OnOk result (found.new ≡ found.old ++ ended_in at (view node.now) (place_view place.now)) }
{
    match node {
        Node::Segment(_) => Ok(()),
        Node::Loop(head, nodes) => ended(found, at, head.id.as_slice(), nodes, place),
    }
}

/// After a place the nodes in which it is end.
#[cycle(ends)]
pub(crate) fn ended<'a>(
    found: &mut Found<'a>,
    at: u64,
    outer: &'a [u8],
    nodes: &'a [Node],
    place: &[Step],
) -> Result<(), NoMemory>
    requires { AllByRecursion (λ s. s.use_no + 1 < 2 ^ 64) place.now }
    ensures { OnOk result (found.new ≡ found.old ++ ended_among at outer.now (nodes_view nodes.now) (place_view place.now)) }
{
    let Some((step, rest)) = place.split_first() else {
        return Ok(());
    };
    if step.child >= nodes.len() {
        return Ok(());
    }
    let node = &nodes[step.child];
    ended_in(found, at, node, rest)?;
    found.too_few(at, outer, step.use_no + 1, node)?;
    unused(found, at, outer, nodes, step.child + 1)
}
