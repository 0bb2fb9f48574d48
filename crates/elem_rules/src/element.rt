ghost use Rattle.std.specs.Prelude.{◌≡◌, ◌≤◌, ◌++◌, [], IsTrue, OnOk, length, nat_lt, if◌then◌else◌};
ghost use Rattle.guide_tree.specs.Words.{is_element_bounded};
ghost use Rattle.elem_rules.specs.Rows.{simple_usage, composite_usage, element_reference};
ghost use Rattle.elem_rules.specs.ElementFaults.{whole_fault};
ghost use Rattle.elem_rules.specs.Found.{too_often_found, occurrences_found, element_found};

use crate::divided::{has_more, is_empty, part_at};
use crate::findings::{Findings, Spot};
use crate::occurrence::{Occurrence, check_composite, check_simple, missing_fault};
use guide_tree::{CompositeRow, Element, SimpleRow};
use hub_kinds::{ElementCode, NoMemory};
use x12_bytes::Delims;
use x12_segs::occurrences;

/// An element of a segment that has a row: its number, from 1, and its text.
#[derive(Clone, Copy)]
pub struct Subject<'a> {
    pub delims: Delims,
    pub element: u32,
    pub text: &'a [u8],
}

impl<'a> Subject<'a> {
    /// An occurrence of the element, shown with its number, from 1, where there may be more than one.
    fn occurrence(&self, repeat: u32, n: u32, text: &'a [u8]) -> Occurrence<'a>
        ensures { result
            ≡ record {
              delims = self.now.delims;
              element = self.now.element;
              repetition = if nat_lt 1 repeat then n else 0;
              text = text.entry;
            } }
    {
        Occurrence {
            delims: self.delims,
            element: self.element,
            repetition: if repeat > 1 { n } else { 0 },
            text,
        }
    }

    fn spot(&self, repetition: u32) -> Spot
        ensures { result
            ≡ record { element = self.now.element; component = 0; repetition = repetition } }
    {
        Spot {
            element: self.element,
            component: 0,
            repetition,
        }
    }
}

fn whole_fault(delims: Delims, row: &Element, text: &[u8]) -> Option<ElementCode>
    ensures { result ≡ whole_fault delims row.now text.now }
{
    if is_empty(delims, text) {
        match row {
            Element::NotUsed(_) => None,
            Element::Simple(row, _) => missing_fault(row.requirement),
            Element::Composite(row) => missing_fault(row.requirement),
        }
    } else {
        match row {
            Element::NotUsed(_) => Some(ElementCode::NotUsedPresent),
            _ => None,
        }
    }
}

/// The reference number of an element's row.
pub(crate) fn element_reference(row: &Element) -> &[u8]
    ensures { result.now ≡ element_reference row.now }
{
    match row {
        Element::NotUsed(reference) => reference.as_slice(),
        Element::Simple(row, _) => row.reference.as_slice(),
        Element::Composite(row) => row.reference.as_slice(),
    }
}

/// Adds the fault of an element that occurs more often than its repeat.
fn check_repeat<'a>(
    found: &mut Findings<'a>,
    at: &Subject<'a>,
    reference: &'a [u8],
    repeat: u32,
) -> Result<(), NoMemory>
    requires { repeat ≤ 999 }
    ensures { OnOk result
        (found.new
        ≡ found.old ++ too_often_found at.now.delims at.now.element repeat reference.now at.now.text.now) }
{
    if !has_more(at.delims, repeat as usize, occurrences(at.text, at.delims)) {
        return Ok(());
    }
    let extra = part_at(occurrences(at.text, at.delims), repeat as usize);
    found.add(
        at.spot(repeat + 1),
        ElementCode::TooManyRepetitions,
        reference,
        extra,
    )
}

fn check_simple_occurrences<'a>(
    found: &mut Findings<'a>,
    at: &Subject<'a>,
    row: &'a SimpleRow,
    repeat: u32,
) -> Result<(), NoMemory>
    requires { repeat ≤ 999 }
    ensures { OnOk result
        (found.new
        ≡ found.old ++ occurrences_found at.now.delims at.now.element (simple_usage row.now repeat) at.now.text.now) }
{
    let mut parts = occurrences(at.text, at.delims);
    for n in 0..repeat {
        let Some(text) = parts.next() else {
            return Ok(());
        };
        check_simple(found, &at.occurrence(repeat, n + 1, text), row)?;
    }
    Ok(())
}

fn check_composite_occurrences<'a>(
    found: &mut Findings<'a>,
    at: &Subject<'a>,
    row: &'a CompositeRow,
) -> Result<(), NoMemory>
    requires repeat { row.now.repeat ≤ 999 }
    requires components { length row.now.components ≤ 20 }
    ensures { OnOk result
        (found.new
        ≡ found.old ++ occurrences_found at.now.delims at.now.element (composite_usage row.now) at.now.text.now) }
{
    let mut parts = occurrences(at.text, at.delims);
    for n in 0..row.repeat {
        let Some(text) = parts.next() else {
            return Ok(());
        };
        check_composite(found, &at.occurrence(row.repeat, n + 1, text), row)?;
    }
    Ok(())
}

/// Adds what is wrong in an element, by its row.
pub(crate) fn check_element<'a>(
    found: &mut Findings<'a>,
    at: &Subject<'a>,
    row: &'a Element,
) -> Result<(), NoMemory>
    requires { IsTrue (is_element_bounded row.now) }
    ensures { OnOk result
        (found.new ≡ found.old ++ element_found at.now.delims at.now.element row.now at.now.text.now) }
{
    let reference = element_reference(row);
    let whole = whole_fault(at.delims, row, at.text);
    found.add_if(at.spot(0), whole, reference, at.text)?;
    match row {
        Element::NotUsed(_) => Ok(()),
        Element::Simple(simple, repeat) => {
            check_repeat(found, at, reference, *repeat)?;
            check_simple_occurrences(found, at, simple, *repeat)
        }
        Element::Composite(composite) => {
            check_repeat(found, at, reference, composite.repeat)?;
            check_composite_occurrences(found, at, composite)
        }
    }
}
