//! What a segment of a guide has that a names file may have words for.
ghost use Rattle.std.specs.Prelude.{◌≡◌, ◌++◌, ◌∷◌, [], OnOk};
ghost use Rattle.std.specs.List.{flat_map};
ghost use Rattle.guide_names.specs.Subjects.{element_subject};
ghost use Rattle.names_file.specs.GuideSubjects as subjects;

use guide_names::{code_subject, element_subject, label_subject, segment_subject};
use guide_tree::{CodeList, Codes, Component, CompositeRow, Element, SimpleRow, Slot};
use hub_kinds::{NoMemory, Text};
use std::alloc::Global;

fn push_codes(
    alloc: Global,
    found: &mut Vec<Text>,
    reference: &[u8],
    codes: &[Text],
) -> Result<(), NoMemory>
    ensures { OnOk result (found.new.items ≡ found.old.items ++ subjects.codes_of reference.now codes.now) }
{
    for code in codes {
        found.push(code_subject(alloc, reference, code.as_slice())?)?;
    }
    Ok(())
}

fn push_used(
    alloc: Global,
    found: &mut Vec<Text>,
    reference: &[u8],
    list: &CodeList,
) -> Result<(), NoMemory>
    ensures { OnOk result (found.new.items ≡ found.old.items ++ subjects.codes_of reference.now list.now.used) }
{
    push_codes(alloc, found, reference, list.used.as_slice())
}

fn push_unused(
    alloc: Global,
    found: &mut Vec<Text>,
    reference: &[u8],
    codes: &Option<Codes>,
) -> Result<(), NoMemory>
    ensures { OnOk result (found.new.items ≡ found.old.items ++ subjects.unused_of reference.now codes.now) }
{
    match codes {
        None => Ok(()),
        Some(codes) => push_codes(alloc, found, reference, codes.as_slice()),
    }
}

fn push_list(
    alloc: Global,
    found: &mut Vec<Text>,
    reference: &[u8],
    list: &CodeList,
) -> Result<(), NoMemory>
    ensures { OnOk result (found.new.items ≡ found.old.items
        ++ (subjects.codes_of reference.now list.now.used ++ subjects.unused_of reference.now list.now.unused)) }
{
    push_used(alloc, found, reference, list)?;
    push_unused(alloc, found, reference, &list.unused)
}

fn push_listed(
    alloc: Global,
    found: &mut Vec<Text>,
    reference: &[u8],
    codes: &Option<CodeList>,
) -> Result<(), NoMemory>
    ensures { OnOk result (found.new.items ≡ found.old.items ++ subjects.listed_of reference.now codes.now) }
{
    match codes {
        None => Ok(()),
        Some(list) => push_list(alloc, found, reference, list),
    }
}

fn push_row(alloc: Global, found: &mut Vec<Text>, row: &SimpleRow) -> Result<(), NoMemory>
    ensures { OnOk result (found.new.items ≡ found.old.items ++ subjects.row_of row.now) }
{
    let reference = row.reference.as_slice();
    found.push(element_subject(alloc, reference)?)?;
    push_listed(alloc, found, reference, &row.codes)
}

fn push_reference(alloc: Global, found: &mut Vec<Text>, reference: &[u8]) -> Result<(), NoMemory>
    ensures { OnOk result (found.new.items ≡ found.old.items
        ++ element_subject reference.now ∷ []) }
{
    found.push(element_subject(alloc, reference)?)?;
    Ok(())
}

fn push_component(
    alloc: Global,
    found: &mut Vec<Text>,
    component: &Component,
) -> Result<(), NoMemory>
    ensures { OnOk result (found.new.items ≡ found.old.items ++ subjects.component_of component.now) }
{
    match component {
        Component::NotUsed(reference) => push_reference(alloc, found, reference.as_slice()),
        Component::Simple(row) => push_row(alloc, found, row),
    }
}

fn push_components(
    alloc: Global,
    found: &mut Vec<Text>,
    components: &[Component],
) -> Result<(), NoMemory>
    ensures { OnOk result (found.new.items ≡ found.old.items ++ flat_map subjects.component_of components.now) }
{
    for i in 0..components.len() {
        push_component(alloc, found, &components[i])?;
    }
    Ok(())
}

fn push_composite(alloc: Global, found: &mut Vec<Text>, row: &CompositeRow) -> Result<(), NoMemory>
    ensures { OnOk result (found.new.items ≡ found.old.items ++ subjects.composite_of row.now) }
{
    found.push(element_subject(alloc, row.reference.as_slice())?)?;
    push_components(alloc, found, row.components.as_slice())
}

fn push_element(alloc: Global, found: &mut Vec<Text>, element: &Element) -> Result<(), NoMemory>
    ensures { OnOk result (found.new.items ≡ found.old.items ++ subjects.element_of element.now) }
{
    match element {
        Element::NotUsed(reference) => push_reference(alloc, found, reference.as_slice()),
        Element::Simple(row, _) => push_row(alloc, found, row),
        Element::Composite(row) => push_composite(alloc, found, row),
    }
}

fn push_elements(alloc: Global, found: &mut Vec<Text>, elements: &[Element]) -> Result<(), NoMemory>
    ensures { OnOk result (found.new.items ≡ found.old.items ++ flat_map subjects.element_of elements.now) }
{
    for i in 0..elements.len() {
        push_element(alloc, found, &elements[i])?;
    }
    Ok(())
}

fn push_label(alloc: Global, found: &mut Vec<Text>, label: &Option<Text>) -> Result<(), NoMemory>
    ensures { OnOk result (found.new.items ≡ found.old.items ++ subjects.label_of label.now) }
{
    match label {
        None => Ok(()),
        Some(label) => {
            found.push(label_subject(alloc, label.as_slice())?)?;
            Ok(())
        }
    }
}

fn push_slot_elements(alloc: Global, found: &mut Vec<Text>, slot: &Slot) -> Result<(), NoMemory>
    ensures { OnOk result (found.new.items ≡ found.old.items ++ flat_map subjects.element_of slot.now.elements) }
{
    push_elements(alloc, found, slot.elements.as_slice())
}

/// Adds what a segment has.
pub(crate) fn push_slot(alloc: Global, found: &mut Vec<Text>, slot: &Slot) -> Result<(), NoMemory>
    ensures { OnOk result (found.new.items ≡ found.old.items ++ subjects.slot_of slot.now) }
{
    found.push(segment_subject(alloc, slot.id.as_slice())?)?;
    push_label(alloc, found, &slot.label)?;
    push_slot_elements(alloc, found, slot)
}
