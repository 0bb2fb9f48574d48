ghost use Rattle.std.specs.Prelude.{◌≡◌, ◌≤◌, ◌++◌, [], ◌∷◌, OnOk, length, true, false};
ghost use Rattle.guide_tree.specs.declared.element.Component.TheVariants as component;
ghost use Rattle.elem_rules.specs.Rows.{component_reference};
ghost use Rattle.elem_rules.specs.ElementFaults.{missing_fault, component_fault};
ghost use Rattle.x12_segs.specs.Words.{components as components_in};
ghost use Rattle.elem_rules.specs.Divided.{component_in};
ghost use Rattle.elem_rules.specs.Found.{component_found, components_found, occurrence_found};

use crate::divided::{has_more, is_empty, next_part, part_at};
use crate::findings::{Findings, Spot};
use crate::value::value_fault;
use guide_tree::{Component, CompositeRow, Requirement, SimpleRow};
use hub_kinds::{ElementCode, NoMemory};
use x12_bytes::Delims;
use x12_segs::{Parts, components};

/// An occurrence of an element, and where it is shown.
#[derive(Clone, Copy)]
pub struct Occurrence<'a> {
    pub delims: Delims,
    pub element: u32,
    /// The repetition that is shown; 0 for none.
    pub repetition: u32,
    pub text: &'a [u8],
}

impl<'a> Occurrence<'a> {
    fn spot(&self, component: u32) -> Spot
        ensures { result
            ≡ record { element = self.now.element; component = component; repetition = self.now.repetition } }
    {
        Spot {
            element: self.element,
            component,
            repetition: self.repetition,
        }
    }

    fn components(&self) -> Parts<'a>
        ensures { result ≡ components_in self.now.delims self.now.text.now }
    {
        components(self.text, self.delims)
    }

    /// Component `n`, from 1; one that isn't there is the empty text.
    fn component(&self, n: usize) -> &'a [u8]
        requires { 1 ≤ n }
        ensures { result.now ≡ component_in self.now.delims self.now.text.now n }
    {
        part_at(self.components(), n - 1)
    }
}

/// The code for an element or a component that is missing, where it is mandatory.
pub(crate) fn missing_fault(requirement: Requirement) -> Option<ElementCode>
    ensures { result ≡ missing_fault requirement }
{
    match requirement {
        Requirement::Mandatory => Some(ElementCode::RequiredMissing),
        Requirement::Optional => None,
    }
}

fn simple_fault(delims: Delims, row: &SimpleRow, text: &[u8]) -> Option<ElementCode>
    ensures { result ≡ component_fault delims (component.Simple row.now) text.now }
{
    if is_empty(delims, text) {
        missing_fault(row.requirement)
    } else {
        value_fault(row, text)
    }
}

fn component_fault(delims: Delims, row: &Component, text: &[u8]) -> Option<ElementCode>
    ensures { result ≡ component_fault delims row.now text.now }
{
    match row {
        Component::NotUsed(_) if is_empty(delims, text) => None,
        Component::NotUsed(_) => Some(ElementCode::NotUsedPresent),
        Component::Simple(row) => simple_fault(delims, row, text),
    }
}

fn component_reference(row: &Component) -> &[u8]
    ensures { result.now ≡ component_reference row.now }
{
    match row {
        Component::NotUsed(reference) => reference.as_slice(),
        Component::Simple(row) => row.reference.as_slice(),
    }
}

/// Adds what is wrong in an occurrence of a simple element, which is one component.
pub(crate) fn check_simple<'a>(
    found: &mut Findings<'a>,
    at: &Occurrence<'a>,
    row: &'a SimpleRow,
) -> Result<(), NoMemory>
    ensures { OnOk result
        (found.new
        ≡ found.old
        ++ occurrence_found at.now.delims at.now.element at.now.repetition row.now.reference false
        (component.Simple row.now ∷ []) at.now.text.now) }
{
    let reference = row.reference.as_slice();
    if has_more(at.delims, 1, at.components()) {
        return found.add(
            at.spot(2),
            ElementCode::TooManyComponents,
            reference,
            at.component(2),
        );
    }
    if is_empty(at.delims, at.text) {
        return Ok(());
    }
    let text = at.component(1);
    found.add_if(
        at.spot(0),
        simple_fault(at.delims, row, text),
        reference,
        text,
    )
}

/// Adds what is wrong in an occurrence of a composite element.
pub(crate) fn check_composite<'a>(
    found: &mut Findings<'a>,
    at: &Occurrence<'a>,
    row: &'a CompositeRow,
) -> Result<(), NoMemory>
    requires { length row.now.components ≤ 20 }
    ensures { OnOk result
        (found.new
        ≡ found.old
        ++ occurrence_found at.now.delims at.now.element at.now.repetition row.now.reference true row.now.components at.now.text.now) }
{
    let rows = row.components.as_slice();
    if has_more(at.delims, rows.len(), at.components()) {
        let extra = rows.len() + 1;
        return found.add(
            at.spot(extra as u32),
            ElementCode::TooManyComponents,
            row.reference.as_slice(),
            at.component(extra),
        );
    }
    if is_empty(at.delims, at.text) {
        return Ok(());
    }
    check_components(found, at, rows)
}

/// Adds what is wrong in component `m`, from 1, of an occurrence of a composite element.
fn check_component<'a>(
    found: &mut Findings<'a>,
    at: &Occurrence<'a>,
    m: u32,
    row: &'a Component,
    text: &'a [u8],
) -> Result<(), NoMemory>
    ensures { OnOk result
        (found.new
        ≡ found.old ++ component_found at.now.delims at.now.element at.now.repetition m row.now text.now) }
{
    let fault = component_fault(at.delims, row, text);
    found.add_if(at.spot(m), fault, component_reference(row), text)
}

fn check_components<'a>(
    found: &mut Findings<'a>,
    at: &Occurrence<'a>,
    rows: &'a [Component],
) -> Result<(), NoMemory>
    requires { length rows.now ≤ 20 }
    ensures { OnOk result
        (found.new
        ≡ found.old ++ components_found at.now.delims at.now.element at.now.repetition true rows.now at.now.text.now) }
{
    let mut parts = at.components();
    for m in 0..rows.len() {
        let text = next_part(&mut parts);
        check_component(found, at, m as u32 + 1, &rows[m], text)?;
    }
    Ok(())
}
