//! The first bound that a node doesn't keep.
ghost use Rattle.std.specs.Prelude.{◌≡◌, option_and_then};
ghost use Rattle.guide_tree.specs.Words.{is_slot_id, nodes_view, numbered, view};
ghost use Rattle.setup_errors.specs.Bounds as bounds;
ghost use Rattle.setup_errors.specs.Nodes.{numbered_node};
ghost use Rattle.setup_errors.specs.Search.{viewed};

use crate::nodes::node_at;
use guide_tree::{CodeList, Component, CompositeRow, Element, Loop, Node, SimpleRow, Slot};
use hub_kinds::{MOST_COMPONENTS, MOST_ELEMENTS, MOST_REPEATS, is_alphanumeric, is_segment_id};

/// What is wrong with the row of a simple element or of a component.
#[derive(Clone, Copy)]
pub enum RowCause {
    ShortestIsZero,
    ShortestOverLongest(u32, u32),
    LongestTooLong(u32),
    NoCode,
    NoUnusedCode,
}

/// What is wrong with an element.
#[derive(Clone, Copy)]
pub enum ElementCause {
    Repeat(u32),
    Row(RowCause),
    ManyComponents(u64),
    Component(u64, RowCause),
}

/// What is wrong with a node.
#[derive(Clone, Copy)]
pub enum NodeCause {
    LeastOverMost(u32, u32),
    MostTooLarge(u32),
    SegmentId,
    LoopId,
    ManyElements(u64),
    Element(u64, ElementCause),
}

fn use_cause(least: u32, most: u32) -> Option<NodeCause>
    ensures { result ≡ bounds.use_cause least most }
{
    if least > most {
        return Some(NodeCause::LeastOverMost(least, most));
    }
    if most > 999_999 {
        return Some(NodeCause::MostTooLarge(most));
    }
    None
}

fn codes_cause(codes: &CodeList) -> Option<RowCause>
    ensures { result ≡ bounds.codes_cause codes.now }
{
    if codes.used.as_slice().is_empty() {
        return Some(RowCause::NoCode);
    }
    match &codes.unused {
        Some(unused) if unused.as_slice().is_empty() => Some(RowCause::NoUnusedCode),
        _ => None,
    }
}

fn row_cause(row: &SimpleRow) -> Option<RowCause>
    ensures { result ≡ bounds.row_cause row.now }
{
    if row.min == 0 {
        return Some(RowCause::ShortestIsZero);
    }
    if row.min > row.max {
        return Some(RowCause::ShortestOverLongest(row.min, row.max));
    }
    if row.max > 9_999 {
        return Some(RowCause::LongestTooLong(row.max));
    }
    match &row.codes {
        None => None,
        Some(codes) => codes_cause(codes),
    }
}

fn component_cause(number: u64, component: &Component) -> Option<ElementCause>
    ensures { result ≡ bounds.component_cause number component.now }
{
    match component {
        Component::NotUsed(_) => None,
        Component::Simple(row) => match row_cause(row) {
            None => None,
            Some(cause) => Some(ElementCause::Component(number, cause)),
        },
    }
}

fn components_cause(components: &[Component]) -> Option<ElementCause>
    ensures { result ≡ bounds.components_cause 1 components.now }
{
    for i in 0..components.len() {
        let found = component_cause(i as u64 + 1, &components[i]);
        if found.is_some() {
            return found;
        }
    }
    None
}

fn is_repeat(count: u32) -> bool
    ensures { result ≡ bounds.is_repeat count }
{
    1 <= count && count <= MOST_REPEATS
}

fn composite_cause(row: &CompositeRow) -> Option<ElementCause>
    ensures { result ≡ bounds.composite_cause row.now }
{
    let components = row.components.as_slice();
    if !is_repeat(row.repeat) {
        return Some(ElementCause::Repeat(row.repeat));
    }
    if components.len() > MOST_COMPONENTS {
        return Some(ElementCause::ManyComponents(components.len() as u64));
    }
    components_cause(components)
}

fn simple_cause(row: &SimpleRow, repeat: u32) -> Option<ElementCause>
    ensures { result ≡ bounds.simple_cause row.now repeat }
{
    if !is_repeat(repeat) {
        return Some(ElementCause::Repeat(repeat));
    }
    match row_cause(row) {
        None => None,
        Some(cause) => Some(ElementCause::Row(cause)),
    }
}

fn element_cause(element: &Element) -> Option<ElementCause>
    ensures { result ≡ bounds.element_cause element.now }
{
    match element {
        Element::NotUsed(_) => None,
        Element::Simple(row, repeat) => simple_cause(row, *repeat),
        Element::Composite(row) => composite_cause(row),
    }
}

fn numbered_cause(number: u64, element: &Element) -> Option<NodeCause>
    ensures { result ≡ bounds.numbered_cause number element.now }
{
    match element_cause(element) {
        None => None,
        Some(cause) => Some(NodeCause::Element(number, cause)),
    }
}

fn elements_cause(elements: &[Element]) -> Option<NodeCause>
    ensures { result ≡ bounds.elements_cause 1 elements.now }
{
    for i in 0..elements.len() {
        let found = numbered_cause(i as u64 + 1, &elements[i]);
        if found.is_some() {
            return found;
        }
    }
    None
}

fn is_slot_id(id: &[u8]) -> bool
    ensures { result ≡ is_slot_id id.now }
{
    is_segment_id(id)
        && !(b"ISA".as_slice() == id
            || b"IEA".as_slice() == id
            || b"GS".as_slice() == id
            || b"GE".as_slice() == id
            || b"ST".as_slice() == id
            || b"SE".as_slice() == id)
}

fn rows_cause(slot: &Slot) -> Option<NodeCause>
    ensures { result ≡ bounds.rows_cause slot.now }
{
    let elements = slot.elements.as_slice();
    if !is_slot_id(slot.id.as_slice()) {
        return Some(NodeCause::SegmentId);
    }
    if elements.len() > MOST_ELEMENTS {
        return Some(NodeCause::ManyElements(elements.len() as u64));
    }
    elements_cause(elements)
}

fn slot_cause(slot: &Slot) -> Option<NodeCause>
    ensures { result ≡ bounds.slot_cause slot.now }
{
    match use_cause(slot.min, slot.max) {
        Some(cause) => Some(cause),
        None => rows_cause(slot),
    }
}

fn loop_cause(head: &Loop) -> Option<NodeCause>
    ensures { result ≡ bounds.loop_cause head.now }
{
    if let Some(cause) = use_cause(head.min, head.max) {
        return Some(cause);
    }
    if !is_alphanumeric(head.id.as_slice(), 1, 4) {
        return Some(NodeCause::LoopId);
    }
    None
}

/// The first of a node's bounds that it doesn't keep.
pub(crate) fn bounds_cause(node: &Node) -> Option<NodeCause>
    ensures { result ≡ bounds.bounds_cause (view node.now) }
{
    match node {
        Node::Segment(slot) => slot_cause(slot),
        Node::Loop(head, _) => loop_cause(head),
    }
}

fn bounds_of(node: Option<&Node>) -> Option<NodeCause>
    ensures { result ≡ option_and_then bounds.bounds_cause (viewed node.entry) }
{
    match node {
        None => None,
        Some(node) => bounds_cause(node),
    }
}

/// The first bound that the node with a number doesn't keep.
pub(crate) fn bounds_at(nodes: &[Node], number: u32) -> Option<NodeCause>
    ensures { result ≡ option_and_then bounds.bounds_cause (numbered_node number (numbered 1 (nodes_view nodes.now))) }
{
    bounds_of(node_at(nodes, number))
}
