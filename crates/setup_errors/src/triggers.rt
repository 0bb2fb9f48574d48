//! Why a loop doesn't begin with a segment that is there once.
ghost use Rattle.std.specs.Prelude.{◌≡◌, option_and_then};
ghost use Rattle.guide_tree.specs.Words.{nodes_view, numbered, view};
ghost use Rattle.setup_errors.specs.Nodes.{numbered_node};
ghost use Rattle.setup_errors.specs.Search.{viewed};
ghost use Rattle.setup_errors.specs.Triggers as triggers;

use crate::nodes::node_at;
use guide_tree::{Node, Slot};

/// Why a node isn't a loop that begins with a segment which is there once.
#[derive(Clone, Copy)]
pub enum TriggerCause {
    NotLoop,
    NoNode,
    LoopFirst,
    /// Its first segment may be there this many to this many times.
    Uses(u32, u32),
}

fn uses_cause(slot: &Slot) -> Option<TriggerCause>
    ensures { result ≡ triggers.uses_cause slot.now }
{
    if slot.min == 1 && slot.max == 1 {
        return None;
    }
    Some(TriggerCause::Uses(slot.min, slot.max))
}

fn first_cause(nodes: &[Node]) -> Option<TriggerCause>
    ensures { result ≡ triggers.first_cause (nodes_view nodes.now) }
{
    match nodes.first() {
        None => Some(TriggerCause::NoNode),
        Some(Node::Segment(slot)) => uses_cause(slot),
        Some(Node::Loop(_, _)) => Some(TriggerCause::LoopFirst),
    }
}

/// Why `node` isn't such a loop.
pub(crate) fn trigger_cause(node: &Node) -> Option<TriggerCause>
    ensures { result ≡ triggers.trigger_cause (view node.now) }
{
    match node {
        Node::Segment(_) => Some(TriggerCause::NotLoop),
        Node::Loop(_, nodes) => first_cause(nodes),
    }
}

fn trigger_of(node: Option<&Node>) -> Option<TriggerCause>
    ensures { result ≡ option_and_then triggers.trigger_cause (viewed node.entry) }
{
    match node {
        None => None,
        Some(node) => trigger_cause(node),
    }
}

/// Why the node with a number isn't such a loop.
pub(crate) fn trigger_at(nodes: &[Node], number: u32) -> Option<TriggerCause>
    ensures { result ≡ option_and_then triggers.trigger_cause (numbered_node number (numbered 1 (nodes_view nodes.now))) }
{
    trigger_of(node_at(nodes, number))
}
