ghost use Rattle.std.specs.Prelude.{◌≡◌, ◌++◌, IfOk, OnOk};
ghost use Rattle.guide_tree.specs.Words.{nodes_view, view};
ghost use Rattle.guide_widening.specs.NodeDifferences as nodes;

use crate::difference::Difference;
use crate::nodes::{before_same, push_each_new, push_gone, push_other};
use crate::slots::{push_loop, push_slot};
use guide_tree::Node;
use hub_kinds::NoMemory;
use std::alloc::Global;

/// Adds what one node says otherwise in two guides.
#[cycle(walk)]
fn push_node(
    alloc: Global,
    found: &mut Vec<Difference>,
    old: &Node,
    new: &Node,
) -> Result<(), NoMemory>
    ensures { OnOk result (found.new.items ≡ found.old.items ++ nodes.node_differences (view old.now) (view new.now)) }
{
    match (old, new) {
        (Node::Segment(old), Node::Segment(new)) => push_slot(alloc, found, old, new),
        (Node::Loop(head, inner), Node::Loop(other, others)) => {
            push_loop(found, head, other)?;
            push_nodes(alloc, found, inner, others)
        }
        (Node::Segment(_), Node::Loop(_, _)) | (Node::Loop(_, _), Node::Segment(_)) => {
            push_other(found, old, new)
        }
    }
}

/// Adds what an old node and the same one among `new` say otherwise, and gives the nodes after that one; all where there is none.
#[cycle(walk)]
fn push_against<'a>(
    alloc: Global,
    found: &mut Vec<Difference>,
    node: &Node,
    new: &'a [Node],
) -> Result<&'a [Node], NoMemory>
    ensures found { OnOk result (found.new.items
        ≡ found.old.items ++ nodes.against_differences (view node.now) (nodes_view new.entry.now)) }
    ensures rest { IfOk result (λ rest. nodes_view rest.now ≡ nodes.rest_after (view node.now) (nodes_view new.entry.now)) }
{
    let before = before_same(node, new);
    match new[before..].split_first() {
        None => {
            push_gone(found, node)?;
            Ok(new)
        }
        Some((same, after)) => {
            push_each_new(found, &new[..before])?;
            push_node(alloc, found, node, same)?;
            Ok(after)
        }
    }
}

/// Adds what two lists of nodes say otherwise, node by node.
#[cycle(walk)]
pub(crate) fn push_nodes(
    alloc: Global,
    found: &mut Vec<Difference>,
    old: &[Node],
    new: &[Node],
) -> Result<(), NoMemory>
    ensures { OnOk result (found.new.items ≡ found.old.items ++ nodes.nodes_differences (nodes_view old.now) (nodes_view new.now)) }
{
    let mut rest = new;
    for node in old {
        rest = push_against(alloc, found, node, rest)?;
    }
    push_each_new(found, rest)
}
