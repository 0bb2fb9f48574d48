ghost use Rattle.std.specs.Prelude.{◌≡◌, []};
ghost use Rattle.std.specs.Option.{option_map_or};
ghost use Rattle.guide_tree.specs.Words.{nodes_view, numbered};
ghost use Rattle.setup_errors.specs.Nodes.{id_at, node_id, numbered_node};
ghost use Rattle.setup_errors.specs.Search.{found, seen, viewed, with_number};

use guide_tree::Node;

/// What a search among nodes came to.
enum Search<'a> {
    /// The node at the place.
    At(&'a Node),
    /// The place is so far after the nodes.
    Behind(u32),
}

/// The node at a place of these nodes and of what is in them, a loop before what is in it, from 0 on.
fn look<'a>(nodes: &'a [Node], place: u32) -> Search<'a>
    ensures { seen result ≡ found (nodes_view nodes.entry.now) place }
{
    let mut left = place;
    for node in nodes {
        if left == 0 {
            return Search::At(node);
        }
        left -= 1;
        if let Node::Loop(_, inner) = node {
            match look(inner, left) {
                Search::At(node) => return Search::At(node),
                Search::Behind(behind) => left = behind,
            }
        }
    }
    Search::Behind(left)
}

/// The node with a number, as a guide counts its nodes: from 1 on, a loop before what is in it.
pub(crate) fn node_at<'a>(nodes: &'a [Node], number: u32) -> Option<&'a Node>
    ensures { with_number number (viewed result) ≡ numbered_node number (numbered 1 (nodes_view nodes.entry.now)) }
{
    if number == 0 {
        return None;
    }
    match look(nodes, number - 1) {
        Search::At(node) => Some(node),
        Search::Behind(_) => None,
    }
}

/// The id of a node's segment or loop; empty where there isn't a node.
pub(crate) fn id_of<'a>(node: Option<&'a Node>) -> &'a [u8]
    ensures { result.now ≡ option_map_or node_id (viewed node.entry) [] }
{
    match node {
        None => &[],
        Some(Node::Segment(slot)) => slot.id.as_slice(),
        Some(Node::Loop(head, _)) => head.id.as_slice(),
    }
}

/// The id of the node with a number; empty where there is none.
pub(crate) fn id_at<'a>(nodes: &'a [Node], number: u32) -> &'a [u8]
    ensures { result.now ≡ id_at (numbered 1 (nodes_view nodes.entry.now)) number }
{
    id_of(node_at(nodes, number))
}
