//! What no set can meet.
ghost use Rattle.std.specs.Prelude.{◌≡◌, ◌++◌, not, OnOk};
ghost use Rattle.std.specs.List.{list_all, position_from};
ghost use Rattle.guide_tree.specs.Words.{nodes_view};
ghost use Rattle.guide_warnings.specs.Unmet as unmet;

use crate::codes::{has_form, has_length};
use crate::warning::{UnmetWarning, Warning};
use guide_tree::{Element, Node, Requirement, SimpleRow, Slot};
use hub_kinds::{NoMemory, Text, copy_text};
use std::alloc::Global;

fn is_mandatory(requirement: Requirement) -> bool
    ensures { result ≡ unmet.is_mandatory requirement }
{
    match requirement {
        Requirement::Mandatory => true,
        Requirement::Optional => false,
    }
}

/// Whether a value of a row may be a code.
fn may_stand(row: &SimpleRow, code: &[u8]) -> bool
    ensures { result ≡ unmet.may_stand row.now code.now }
{
    has_form(row, code) && has_length(row, code)
}

fn may_none_stand(row: &SimpleRow, used: &[Text]) -> bool
    ensures { result ≡ list_all (λ code. not (unmet.may_stand row.now code)) used.now }
{
    used.iter().all(|code| !may_stand(row, code.as_slice()))
}

fn is_unmet_row(row: &SimpleRow) -> bool
    ensures { result ≡ unmet.is_unmet_row row.now }
{
    match &row.codes {
        None => false,
        Some(codes) => {
            is_mandatory(row.requirement) && may_none_stand(row, codes.used.as_slice())
        }
    }
}

fn is_unmet(element: &Element) -> bool
    ensures { result ≡ unmet.is_unmet_element element.now }
{
    match element {
        Element::Simple(row, _) => is_unmet_row(row),
        Element::NotUsed(_) | Element::Composite(_) => false,
    }
}

/// The position of the first element that no value can meet.
fn first_unmet(elements: &[Element]) -> Option<u64>
    ensures { result ≡ position_from unmet.is_unmet_element 1 elements.now }
{
    for i in 0..elements.len() {
        if is_unmet(&elements[i]) {
            return Some(i as u64 + 1);
        }
    }
    None
}

fn push_slot_unmet(alloc: Global, found: &mut Vec<Warning>, slot: &Slot) -> Result<(), NoMemory>
    ensures { OnOk result (found.new.items ≡ found.old.items ++ unmet.unmet_slot slot.now) }
{
    let Some(element) = first_unmet(slot.elements.as_slice()) else {
        return Ok(());
    };
    found.push(Warning::Unmet(UnmetWarning {
        slot: slot.number,
        id: copy_text(alloc, slot.id.as_slice())?,
        element,
    }))?;
    Ok(())
}

/// Adds the elements of nodes by which no set can meet them.
pub(crate) fn push_unmet(
    alloc: Global,
    found: &mut Vec<Warning>,
    nodes: &[Node],
) -> Result<(), NoMemory>
    ensures { OnOk result (found.new.items ≡ found.old.items ++ unmet.unmet_nodes (nodes_view nodes.now)) }
{
    for node in nodes {
        match node {
            Node::Segment(slot) if slot.min != 0 => push_slot_unmet(alloc, found, slot)?,
            Node::Loop(head, inner) if head.min != 0 => push_unmet(alloc, found, inner)?,
            Node::Segment(_) | Node::Loop(_, _) => {}
        }
    }
    Ok(())
}
