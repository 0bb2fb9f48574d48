ghost use Rattle.std.specs.Prelude.{◌≡◌, option_map, is_some};
ghost use Rattle.guide_tree.specs.Tree.{find_slot, any_slot};
ghost use Rattle.guide_tree.specs.Conditions.{labelled, is_hierarchy_slot};
ghost use Rattle.guide_tree.specs.Slots.{has_slot_number, slot_numbered};
ghost use Rattle.guide_tree.specs.View.{nodes_view};

use crate::node::Node;
use crate::slot::Slot;

fn is_hierarchy_slot(slot: &Slot) -> bool
    ensures { result ≡ is_hierarchy_slot slot.now }
{
    slot.id.as_slice() == b"HL".as_slice() && 4 <= slot.elements.as_slice().len()
}

/// The slot that a label names: the first that has it.
pub(crate) fn slot_labelled<'a>(nodes: &'a [Node], label: &[u8]) -> Option<&'a Slot>
    ensures { option_map (λ s. s.now) result ≡ labelled (nodes_view nodes.entry.now) label.now }
{
    for node in nodes {
        let found = match node {
            Node::Segment(slot) => {
                if slot.has_label(label) {
                    Some(slot)
                } else {
                    None
                }
            }
            Node::Loop(_, inner) => slot_labelled(inner, label),
        };
        if found.is_some() {
            return found;
        }
    }
    None
}

fn has_slot_number(slot: &Slot, number: u32) -> bool
    ensures { result ≡ has_slot_number number slot.now }
{
    slot.number == number
}

/// The slot with a number, where a segment has it.
pub(crate) fn slot_numbered<'a>(nodes: &'a [Node], number: u32) -> Option<&'a Slot>
    ensures { option_map (λ s. s.now) result ≡ slot_numbered (nodes_view nodes.entry.now) number }
{
    for node in nodes {
        let found = match node {
            Node::Segment(slot) => {
                if has_slot_number(slot, number) {
                    Some(slot)
                } else {
                    None
                }
            }
            Node::Loop(_, inner) => slot_numbered(inner, number),
        };
        if found.is_some() {
            return found;
        }
    }
    None
}

/// The first segment HL that has four elements or more.
pub(crate) fn hierarchy_slot(nodes: &[Node]) -> Option<&Slot>
    ensures { option_map (λ s. s.now) result ≡ find_slot is_hierarchy_slot (nodes_view nodes.entry.now) }
{
    for node in nodes {
        let found = match node {
            Node::Segment(slot) => {
                if is_hierarchy_slot(slot) {
                    Some(slot)
                } else {
                    None
                }
            }
            Node::Loop(_, inner) => hierarchy_slot(inner),
        };
        if found.is_some() {
            return found;
        }
    }
    None
}
