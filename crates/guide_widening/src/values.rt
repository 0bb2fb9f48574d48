ghost use Rattle.std.specs.Prelude.{◌≡◌, IfOk};
ghost use Rattle.guide_widening.specs.Changes as changes;
ghost use Rattle.guide_widening.specs.NodeDifferences as nodes;
ghost use Rattle.guide_widening.specs.RowDifferences as rows;
ghost use Rattle.guide_widening.specs.Rows.{fits_empty, fits_no_component, is_optional};

use crate::difference::{At, Presence, Value};
use guide_tree::{Component, Element, Requirement};
use hub_kinds::{NoMemory, Text, copy_text};
use std::alloc::Global;

/// A copy of `text` as a value.
pub(crate) fn text_of(alloc: Global, text: &Option<Text>) -> Result<Value, NoMemory>
    ensures { IfOk result (λ value. value ≡ changes.text_value text.now) }
{
    match text {
        None => Ok(Value::Nothing),
        Some(text) => Ok(Value::Text(copy_text(alloc, text.as_slice())?)),
    }
}

/// The presence that a requirement asks for.
pub(crate) fn required(requirement: Requirement) -> Presence
    ensures { result ≡ rows.required requirement }
{
    match requirement {
        Requirement::Mandatory => Presence::Mandatory,
        Requirement::Optional => Presence::Optional,
    }
}

fn is_optional(requirement: Requirement) -> bool
    ensures { result ≡ is_optional requirement }
{
    match requirement {
        Requirement::Mandatory => false,
        Requirement::Optional => true,
    }
}

/// The presence that the row of a component asks for.
pub(crate) fn component_presence(component: &Component) -> Presence
    ensures { result ≡ rows.component_presence component.now }
{
    match component {
        Component::NotUsed(_) => Presence::NotUsed,
        Component::Simple(row) => required(row.requirement),
    }
}

/// The presence that the row of an element asks for.
pub(crate) fn element_presence(element: &Element) -> Presence
    ensures { result ≡ rows.element_presence element.now }
{
    match element {
        Element::NotUsed(_) => Presence::NotUsed,
        Element::Simple(row, _) => required(row.requirement),
        Element::Composite(row) => required(row.requirement),
    }
}

/// Whether a component may be empty.
pub(crate) fn fits_no_component(component: &Component) -> bool
    ensures { result ≡ fits_no_component component.now }
{
    match component {
        Component::NotUsed(_) => true,
        Component::Simple(row) => is_optional(row.requirement),
    }
}

/// Whether an element may be empty.
pub(crate) fn fits_empty(element: &Element) -> bool
    ensures { result ≡ fits_empty element.now }
{
    match element {
        Element::NotUsed(_) => true,
        Element::Simple(row, _) => is_optional(row.requirement),
        Element::Composite(row) => is_optional(row.requirement),
    }
}

/// The place of a node by its `number`.
pub(crate) fn at_node(number: u32) -> At
    ensures { result ≡ nodes.at_node number }
{
    At {
        node: number,
        element: 0,
        component: 0,
    }
}

/// The place of an element of the node at `at`, by its `position` from 1 on.
pub(crate) fn element_at(at: At, position: u64) -> At
    ensures { result ≡ rows.element_at at position }
{
    At {
        node: at.node,
        element: position,
        component: 0,
    }
}

/// The place of a component of the element at `at`, by its `position` from 1 on.
pub(crate) fn component_at(at: At, position: u64) -> At
    ensures { result ≡ rows.component_at at position }
{
    At {
        node: at.node,
        element: at.element,
        component: position,
    }
}
