ghost use Rattle.std.specs.Prelude.{◌≡◌};
ghost use Rattle.std.specs.List.{list_all};
ghost use Rattle.hub_kinds.specs.Words.{contains_text};
ghost use Rattle.guide_tree.specs.Bounds.{is_within, is_use_range, is_length_range, envelope_ids};
ghost use Rattle.guide_tree.specs.Bounds.{is_slot_id, is_loop_id, has_codes, are_codes_bounded, is_row_bounded};
ghost use Rattle.guide_tree.specs.Bounds.{is_component_bounded, is_element_bounded, is_repeat, is_slot_bounded};
ghost use Rattle.guide_tree.specs.Bounds.{is_loop_bounded, is_bounded};
ghost use Rattle.guide_tree.specs.View.{view};

use crate::element::{CodeList, Component, Element, SimpleRow};
use crate::limits::{LONGEST_ELEMENT, MOST_USES};
use crate::node::{Loop, Node};
use crate::slot::Slot;
use hub_kinds::{
    MOST_COMPONENTS, MOST_ELEMENTS, MOST_REPEATS, Text, is_alphanumeric, is_segment_id,
};

fn is_use_range(least: u32, most: u32) -> bool
    ensures { result ≡ is_use_range least most }
{
    least <= most && most <= MOST_USES
}

fn is_length_range(least: u32, most: u32) -> bool
    ensures { result ≡ is_length_range least most }
{
    1 <= least && least <= most && most <= LONGEST_ELEMENT
}

fn is_repeat(count: u32) -> bool
    ensures { result ≡ is_repeat count }
{
    1 <= count && count <= MOST_REPEATS
}

fn is_envelope_id(id: &[u8]) -> bool
    ensures { result ≡ contains_text envelope_ids id.now }
{
    b"ISA".as_slice() == id
        || b"IEA".as_slice() == id
        || b"GS".as_slice() == id
        || b"GE".as_slice() == id
        || b"ST".as_slice() == id
        || b"SE".as_slice() == id
}

/// Whether a slot may have this id.
fn is_slot_id(id: &[u8]) -> bool
    ensures { result ≡ is_slot_id id.now }
{
    is_segment_id(id) && !is_envelope_id(id)
}

fn is_loop_id(id: &[u8]) -> bool
    ensures { result ≡ is_loop_id id.now }
{
    is_alphanumeric(id, 1, 4)
}

/// Whether there is some text.
pub(crate) fn is_filled(texts: &[Text]) -> bool
    ensures { result ≡ has_codes texts.now }
{
    1 <= texts.len()
}

fn are_codes_bounded(codes: &CodeList) -> bool
    ensures { result ≡ are_codes_bounded codes.now }
{
    is_filled(codes.used.as_slice())
        && match &codes.unused {
            None => true,
            Some(unused) => is_filled(unused.as_slice()),
        }
}

fn is_row_bounded(row: &SimpleRow) -> bool
    ensures { result ≡ is_row_bounded row.now }
{
    is_length_range(row.min, row.max)
        && match &row.codes {
            None => true,
            Some(codes) => are_codes_bounded(codes),
        }
}

fn is_component_bounded(component: &Component) -> bool
    ensures { result ≡ is_component_bounded component.now }
{
    match component {
        Component::NotUsed(_) => true,
        Component::Simple(row) => is_row_bounded(row),
    }
}

fn are_components_bounded(components: &[Component]) -> bool
    ensures { result ≡ list_all is_component_bounded components.now }
{
    components.iter().all(is_component_bounded)
}

fn is_element_bounded(element: &Element) -> bool
    ensures { result ≡ is_element_bounded element.now }
{
    match element {
        Element::NotUsed(_) => true,
        Element::Simple(row, repeat) => is_repeat(*repeat) && is_row_bounded(row),
        Element::Composite(row) => {
            let components = row.components.as_slice();
            is_repeat(row.repeat)
                && components.len() <= MOST_COMPONENTS
                && are_components_bounded(components)
        }
    }
}

fn are_elements_bounded(elements: &[Element]) -> bool
    ensures { result ≡ list_all is_element_bounded elements.now }
{
    elements.iter().all(is_element_bounded)
}

fn is_slot_bounded(slot: &Slot) -> bool
    ensures { result ≡ is_slot_bounded slot.now }
{
    let elements = slot.elements.as_slice();
    is_use_range(slot.min, slot.max)
        && is_slot_id(slot.id.as_slice())
        && elements.len() <= MOST_ELEMENTS
        && are_elements_bounded(elements)
}

fn is_loop_bounded(head: &Loop) -> bool
    ensures { result ≡ is_loop_bounded head.now }
{
    is_use_range(head.min, head.max) && is_loop_id(head.id.as_slice())
}

/// Whether a node's own bounds and id are as they must be.
pub(crate) fn is_bounded(node: &Node) -> bool
    ensures { result ≡ is_bounded (view node.now) }
{
    match node {
        Node::Segment(slot) => is_slot_bounded(slot),
        Node::Loop(head, _) => is_loop_bounded(head),
    }
}
