ghost use Rattle.std.specs.Prelude.{◌≡◌, ◌+◌, ◌<◌, ◌^◌};
ghost use Rattle.guide_tree.specs.Tree.{count_in, node_count, numbered, numbered_in};
ghost use Rattle.guide_tree.specs.View.{view, nodes_view};

use crate::node::Node;

/// Numbers a node and what is in it, parents first, and gives the number after the last one.
#[cycle(numbering)]
fn number_node(node: &mut Node, number: u32) -> u32
    requires { number + count_in (view node.old) < 2 ^ 32 }
    ensures next { result ≡ number + count_in (view node.old) }
    ensures numbered { view node.new ≡ numbered_in number (view node.old) }
{
    match node {
        Node::Segment(slot) => {
            slot.number = number;
            number + 1
        }
        Node::Loop(head, nodes) => {
            head.number = number;
            number_nodes(nodes, number + 1)
        }
    }
}

/// Numbers nodes and what is in them from `first` on, and gives the number after the last one.
#[cycle(numbering)]
pub(crate) fn number_nodes(nodes: &mut Vec<Node>, first: u32) -> u32
    requires { first + node_count (nodes_view nodes.old.items) < 2 ^ 32 }
    ensures next { result ≡ first + node_count (nodes_view nodes.old.items) }
    ensures numbered { nodes_view nodes.new.items ≡ numbered first (nodes_view nodes.old.items) }
{
    let mut next = first;
    for i in 0..nodes.len() {
        next = number_node(&mut nodes[i], next);
    }
    next
}
