ghost use Rattle.std.specs.Prelude.{◌≡◌, ◌≤◌, ◌++◌, OnOk, length};
ghost use Rattle.guide_tree.specs.Words.{min_of, max_of, nodes_view, view};
ghost use Rattle.guide_widening.specs.NodeDifferences as nodes;
ghost use Rattle.guide_widening.specs.Nodes as rules;

use crate::difference::{Change, Difference, Key, Value};
use crate::picks::can_fit_both;
use crate::push::push;
use crate::values::at_node;
use guide_tree::Node;
use hub_kinds::NoMemory;

fn least_use(node: &Node) -> u32
    ensures { result ≡ min_of (view node.now) }
{
    match node {
        Node::Segment(slot) => slot.min,
        Node::Loop(head, _) => head.min,
    }
}

fn greatest_use(node: &Node) -> u32
    ensures { result ≡ max_of (view node.now) }
{
    match node {
        Node::Segment(slot) => slot.max,
        Node::Loop(head, _) => head.max,
    }
}

fn begins_alike(one: &[Node], other: &[Node]) -> bool
    ensures { result ≡ rules.begins_alike (nodes_view one.now) (nodes_view other.now) }
{
    match (one.first(), other.first()) {
        (Some(Node::Segment(one)), Some(Node::Segment(other))) => can_fit_both(one, other),
        _ => false,
    }
}

/// Whether two nodes of two guides are the same one.
fn is_same_node(one: &Node, other: &Node) -> bool
    ensures { result ≡ rules.is_same_node (view one.now) (view other.now) }
{
    match (one, other) {
        (Node::Segment(one), Node::Segment(other)) => can_fit_both(one, other),
        (Node::Loop(head, inner), Node::Loop(other, others)) => {
            head.id.as_slice() == other.id.as_slice() && begins_alike(inner, others)
        }
        (Node::Segment(_), Node::Loop(_, _)) | (Node::Loop(_, _), Node::Segment(_)) => false,
    }
}

/// How many of the nodes `new` come before the first that is the same as `node`; all if none is.
pub(crate) fn before_same(node: &Node, new: &[Node]) -> usize
    ensures value { result ≡ nodes.before_same (view node.now) (nodes_view new.now) }
    ensures within { result ≤ length new.now }
{
    for i in 0..new.len() {
        if is_same_node(node, &new[i]) {
            return i;
        }
    }
    new.len()
}

fn push_new(found: &mut Vec<Difference>, node: &Node) -> Result<(), NoMemory>
    ensures { OnOk result (found.new.items ≡ found.old.items ++ nodes.new_node (view node.now)) }
{
    let change = if least_use(node) == 0 {
        Change::Wider
    } else {
        Change::Narrower
    };
    let after = Value::Uses(least_use(node), greatest_use(node));
    push(
        found,
        at_node(node.number()),
        Key::Node,
        Some(change),
        Value::Nothing,
        after,
    )
}

/// Adds each of `new`, as new.
pub(crate) fn push_each_new(found: &mut Vec<Difference>, new: &[Node]) -> Result<(), NoMemory>
    ensures { OnOk result (found.new.items ≡ found.old.items ++ nodes.new_nodes (nodes_view new.now)) }
{
    for node in new {
        push_new(found, node)?;
    }
    Ok(())
}

/// Adds `node`, as gone.
pub(crate) fn push_gone(found: &mut Vec<Difference>, node: &Node) -> Result<(), NoMemory>
    ensures { OnOk result (found.new.items ≡ found.old.items ++ nodes.gone_node (view node.now)) }
{
    let before = Value::Uses(least_use(node), greatest_use(node));
    push(
        found,
        at_node(node.number()),
        Key::Node,
        Some(Change::Narrower),
        before,
        Value::Nothing,
    )
}

/// Adds two nodes of which one is a segment and the other a loop.
pub(crate) fn push_other(
    found: &mut Vec<Difference>,
    old: &Node,
    new: &Node,
) -> Result<(), NoMemory>
    ensures { OnOk result (found.new.items ≡ found.old.items ++ nodes.other_node (view old.now) (view new.now)) }
{
    let before = Value::Uses(least_use(old), greatest_use(old));
    let after = Value::Uses(least_use(new), greatest_use(new));
    push(
        found,
        at_node(new.number()),
        Key::Node,
        Some(Change::Other),
        before,
        after,
    )
}
