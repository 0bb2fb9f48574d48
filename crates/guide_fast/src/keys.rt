ghost use Rattle.std.specs.Prelude.{◌≡◌};
ghost use Rattle.guide_fast.specs.Keys.{slot_key, begin_key, slot_reach, begin_reach, lent_reach, Reaches};

use guide_tree::{Node, Slot};

/// How many of a segment's first texts, its id first, slots are looked for by: few, since each is searched for.
pub const POSITIONS: u32 = 5;

/// The text by which a slot is looked for: where its first pick lists one code, at one of the first positions, that code, and else its
/// id. It is the text of a segment that fits the slot at one of these positions.
pub(crate) fn slot_key(slot: &Slot) -> &[u8]
    ensures { result.now ≡ slot_key slot.entry.now }
{
    if let [pick, ..] = slot.picks.as_slice() {
        if pick.position < POSITIONS {
            if let [code] = pick.codes.as_slice() {
                return code.as_slice();
            }
        }
    }
    slot.id.as_slice()
}

/// The text by which the slot that a node begins with is looked for.
pub(crate) fn begin_key(node: &Node) -> &[u8]
    ensures { result.now ≡ begin_key node.entry.now }
{
    match node {
        Node::Segment(slot) => slot_key(slot),
        Node::Loop(_, nodes) => match nodes.first() {
            Some(Node::Segment(slot)) => slot_key(slot),
            _ => b"",
        },
    }
}

/// How many of a segment's first texts, its id first, have that by which a slot is looked for.
fn slot_reach(slot: &Slot) -> usize
    ensures { result ≡ slot_reach slot.now }
{
    if let [pick, ..] = slot.picks.as_slice() {
        if pick.position < POSITIONS {
            return pick.position as usize + 1;
        }
    }
    1
}

fn begin_reach(node: &Node) -> usize
    ensures { result ≡ begin_reach node.now }
{
    match node {
        Node::Segment(slot) => slot_reach(slot),
        Node::Loop(_, nodes) => match nodes.first() {
            Some(Node::Segment(slot)) => slot_reach(slot),
            _ => 1,
        },
    }
}

/// How many of a segment's first texts have that by which any of some nodes is looked for.
pub(crate) fn nodes_reach(nodes: &[Node]) -> usize
    ensures { Reaches begin_reach result nodes.now }
{
    let mut reach = 0;
    for k in 0..nodes.len() {
        reach = reach.max(begin_reach(&nodes[k]));
    }
    reach
}

/// How far the keys of some slots reach.
pub(crate) fn slots_reach(slots: &[&Slot]) -> usize
    ensures { Reaches lent_reach result slots.now }
{
    let mut reach = 0;
    for k in 0..slots.len() {
        reach = reach.max(slot_reach(slots[k]));
    }
    reach
}
