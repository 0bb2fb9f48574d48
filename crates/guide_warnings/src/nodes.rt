ghost use Rattle.std.specs.Prelude.{◌≡◌, ◌++◌, OnOk};
ghost use Rattle.guide_tree.specs.Words.{nodes_view};
ghost use Rattle.guide_warnings.specs.Nodes.{nodes_warnings};

use crate::rows::push_slot;
use crate::warning::Warning;
use guide_tree::Node;
use hub_kinds::NoMemory;
use std::alloc::Global;

/// Adds the warnings of nodes and of what is in them, in their order.
pub(crate) fn push_nodes(
    alloc: Global,
    found: &mut Vec<Warning>,
    nodes: &[Node],
) -> Result<(), NoMemory>
    ensures { OnOk result (found.new.items ≡ found.old.items ++ nodes_warnings (nodes_view nodes.now)) }
{
    for node in nodes {
        match node {
            Node::Segment(slot) => push_slot(alloc, found, slot)?,
            Node::Loop(_, inner) => push_nodes(alloc, found, inner)?,
        }
    }
    Ok(())
}
