ghost use Rattle.std.specs.Prelude.{◌≡◌, ℕ, List};
ghost use Rattle.std.specs.Option.{MatchOption};
ghost use Rattle.guide_tree.specs.Words.{Place, view, nodes_view};
ghost use Rattle.loop_match.specs.Steps.{place_view};
ghost use Rattle.loop_match.specs.LoopIds.{loop_id_of, loop_id_in, loop_id_under};

use crate::next::Step;
use guide_tree::Node;

/// A loop's id and its nodes; none of a segment.
fn loop_of<'g>(node: &'g Node) -> Option<(&'g [u8], &'g [Node])>
    ensures { (q : Place) (outer : List ℕ) → MatchOption result (loop_id_in outer (view node.entry.now) q ≡ outer)
        (λ it. loop_id_in outer (view node.entry.now) q ≡ loop_id_under it.0.now (nodes_view it.1.now) q) }
{
    match node {
        Node::Segment(_) => None,
        Node::Loop(head, nodes) => Some((head.id.as_slice(), nodes.as_slice())),
    }
}

/// The id of the innermost loop in which a place of these nodes is (999 guide, IK303); empty where it is in none.
pub fn loop_id_of<'g>(nodes: &'g [Node], place: &[Step]) -> &'g [u8]
    ensures { result.now ≡ loop_id_of (nodes_view nodes.entry.now) (place_view place.now) }
{
    let mut outer: &'g [u8] = b"";
    let mut inside = nodes;
    for i in 0..place.len() {
        match inside.get(place[i].child) {
            None => return outer,
            Some(node) => match loop_of(node) {
                None => return outer,
                Some((id, nodes)) => {
                    outer = id;
                    inside = nodes;
                }
            },
        }
    }
    outer
}
