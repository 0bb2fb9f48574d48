ghost use Rattle.std.specs.Prelude.{◌≡◌, option_map};
ghost use Rattle.guide_tree.specs.Words.{nodes_view};
ghost use Rattle.depend_check.specs.Dependencies.{seat_among};
ghost use Rattle.depend_check.specs.Viewed.{seat_view};

use guide_tree::{Node, Slot};

/// A slot of a guide, and the id of the innermost loop round it.
#[derive(Clone, Copy)]
pub struct GuideSeat<'g> {
    pub slot: &'g Slot,
    pub loop_id: &'g [u8],
}

/// The first slot of nodes in a loop that has a label.
pub(crate) fn seat_among<'g>(
    outer: &'g [u8],
    nodes: &'g [Node],
    label: &[u8],
) -> Option<GuideSeat<'g>>
    ensures { option_map seat_view result ≡ seat_among outer.entry.now label.now (nodes_view nodes.entry.now) }
{
    for node in nodes {
        let found = match node {
            Node::Segment(slot) => {
                if slot.has_label(label) {
                    Some(GuideSeat {
                        slot,
                        loop_id: outer,
                    })
                } else {
                    None
                }
            }
            Node::Loop(head, inner) => seat_among(head.id.as_slice(), inner, label),
        };
        if found.is_some() {
            return found;
        }
    }
    None
}
