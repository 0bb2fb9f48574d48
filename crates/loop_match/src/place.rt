ghost use Rattle.std.specs.Prelude.{◌≡◌, option_map, None};
ghost use Rattle.guide_tree.specs.Words.{slot_at, nodes_view};
ghost use Rattle.loop_match.specs.Steps.{place_view};

use crate::next::Step;
use guide_tree::{Node, Slot};

/// The slot that a place leads to.
pub(crate) fn slot_at<'g>(nodes: &'g [Node], place: &[Step]) -> Option<&'g Slot>
    ensures { option_map (λ s. s.now) result ≡ slot_at (nodes_view nodes.entry.now) (place_view place.now) }
{
    let mut inside = nodes;
    for i in 0..place.len() {
        match inside.get(place[i].child) {
            None => return None,
            Some(Node::Segment(slot)) => {
                return if i + 1 == place.len() {
                    Some(slot)
                } else {
                    None
                };
            }
            Some(Node::Loop(_, nodes)) => inside = nodes.as_slice(),
        }
    }
    None
}
