//! How far a guide may go (own), and whether it does.
ghost use Rattle.std.specs.Prelude.{◌≡◌, ◌-◌, ◌≤◌, nat_le, Some, None, if◌then◌else◌};
ghost use Rattle.guide_tree.specs.Tree.{nesting, nesting_in, node_count, count_in};
ghost use Rattle.guide_tree.specs.View.{view, nodes_view};
ghost use Rattle.guide_tree.specs.Room.{room_left};

use crate::node::Node;

/// How many loops are nested at most.
pub const MOST_NESTED: u32 = 8;
/// The greatest number of uses that a node may have.
pub const MOST_USES: u32 = 999_999;
/// The greatest length that an element may have, in bytes.
pub const LONGEST_ELEMENT: u32 = 9_999;

/// Whether no more than `limit` loops are nested. It goes no deeper than that.
pub(crate) fn nests_within(nodes: &[Node], limit: u32) -> bool
    ensures { result ≡ nat_le (nesting (nodes_view nodes.now)) limit }
{
    for node in nodes {
        if let Node::Loop(_, inner) = node
            && (limit == 0 || !nests_within(inner, limit - 1))
        {
            return false;
        }
    }
    true
}

/// How many nodes there is room for after these; none where there isn't room for these.
pub(crate) fn room_behind(nodes: &[Node], room: usize) -> Option<usize>
    ensures { result ≡ room_left room (node_count (nodes_view nodes.now)) }
{
    let mut left = room;
    for node in nodes {
        if left == 0 {
            return None;
        }
        left -= 1;
        if let Node::Loop(_, inner) = node {
            left = room_behind(inner, left)?;
        }
    }
    Some(left)
}
