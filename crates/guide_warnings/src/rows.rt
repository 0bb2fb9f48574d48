ghost use Rattle.std.specs.Prelude.{◌≡◌, ◌+◌, ◌<◌, ◌^◌, ◌++◌, length, OnOk, Some, option_map};
ghost use Rattle.guide_warnings.specs.Rows as rows;

use crate::codes::push_code;
use crate::warning::{At, CodeDoubt, Warning};
use guide_tree::{CodeList, Component, Element, Pick, SimpleRow, Slot};
use hub_kinds::{NoMemory, Text};
use std::alloc::Global;

/// Adds what is doubtful of any code of a list.
fn push_listed(
    alloc: Global,
    found: &mut Vec<Warning>,
    slot: &Slot,
    at: At,
    row: &SimpleRow,
    listed: &[Text],
) -> Result<(), NoMemory>
    ensures { OnOk result (found.new.items ≡ found.old.items ++ rows.listed_warnings slot.now at row.now listed.now) }
{
    push_code(alloc, found, slot, at, CodeDoubt::Joined, row, listed)?;
    push_code(alloc, found, slot, at, CodeDoubt::OtherForm, row, listed)?;
    push_code(alloc, found, slot, at, CodeDoubt::OtherLength, row, listed)
}

fn push_unused(
    alloc: Global,
    found: &mut Vec<Warning>,
    slot: &Slot,
    at: At,
    row: &SimpleRow,
    codes: &CodeList,
) -> Result<(), NoMemory>
    ensures { OnOk result (found.new.items ≡ found.old.items ++ rows.unused_warnings slot.now at row.now codes.now) }
{
    match &codes.unused {
        None => Ok(()),
        Some(unused) => push_listed(alloc, found, slot, at, row, unused.as_slice()),
    }
}

fn push_row(
    alloc: Global,
    found: &mut Vec<Warning>,
    slot: &Slot,
    at: At,
    row: &SimpleRow,
) -> Result<(), NoMemory>
    ensures { OnOk result (found.new.items ≡ found.old.items ++ rows.row_warnings slot.now at row.now) }
{
    let Some(codes) = &row.codes else {
        return Ok(());
    };
    let used = codes.used.as_slice();
    push_listed(alloc, found, slot, at, row, used)?;
    push_code(alloc, found, slot, at, CodeDoubt::AlsoUnused, row, used)?;
    push_unused(alloc, found, slot, at, row, codes)
}

fn push_component(
    alloc: Global,
    found: &mut Vec<Warning>,
    slot: &Slot,
    at: At,
    component: &Component,
) -> Result<(), NoMemory>
    ensures { OnOk result (found.new.items ≡ found.old.items ++ rows.component_warnings slot.now at component.now) }
{
    match component {
        Component::NotUsed(_) => Ok(()),
        Component::Simple(row) => push_row(alloc, found, slot, at, row),
    }
}

fn push_components(
    alloc: Global,
    found: &mut Vec<Warning>,
    slot: &Slot,
    element: u64,
    components: &[Component],
) -> Result<(), NoMemory>
    ensures { OnOk result (found.new.items
        ≡ found.old.items ++ rows.components_warnings slot.now element 1 components.now) }
{
    for i in 0..components.len() {
        let at = At {
            element,
            component: i as u64 + 1,
        };
        push_component(alloc, found, slot, at, &components[i])?;
    }
    Ok(())
}

fn push_element(
    alloc: Global,
    found: &mut Vec<Warning>,
    slot: &Slot,
    position: u64,
    element: &Element,
) -> Result<(), NoMemory>
    ensures { OnOk result (found.new.items ≡ found.old.items ++ rows.element_warnings slot.now position element.now) }
{
    match element {
        Element::NotUsed(_) => Ok(()),
        Element::Simple(row, _) => {
            let at = At {
                element: position,
                component: 0,
            };
            push_row(alloc, found, slot, at, row)
        }
        Element::Composite(row) => {
            push_components(alloc, found, slot, position, row.components.as_slice())
        }
    }
}

fn push_elements(alloc: Global, found: &mut Vec<Warning>, slot: &Slot) -> Result<(), NoMemory>
    ensures { OnOk result (found.new.items ≡ found.old.items ++ rows.elements_warnings slot.now 1 slot.now.elements) }
{
    let elements = slot.elements.as_slice();
    for i in 0..elements.len() {
        push_element(alloc, found, slot, i as u64 + 1, &elements[i])?;
    }
    Ok(())
}

/// The row of the simple element at a position, from 1 on.
pub(crate) fn row_at<'a>(slot: &'a Slot, position: u32) -> Option<&'a SimpleRow>
    ensures { option_map (λ row. row.now) result ≡ rows.row_at slot.entry.now position }
{
    if position == 0 {
        return None;
    }
    match slot.elements.as_slice().get(position as usize - 1) {
        Some(Element::Simple(row, _)) => Some(row),
        _ => None,
    }
}

fn push_pick(
    alloc: Global,
    found: &mut Vec<Warning>,
    slot: &Slot,
    pick: &Pick,
) -> Result<(), NoMemory>
    ensures { OnOk result (found.new.items ≡ found.old.items ++ rows.pick_warnings slot.now pick.now) }
{
    let Some(row) = row_at(slot, pick.position) else {
        return Ok(());
    };
    let at = At {
        element: u64::from(pick.position),
        component: 0,
    };
    let codes = pick.codes.as_slice();
    push_code(alloc, found, slot, at, CodeDoubt::Joined, row, codes)?;
    push_code(alloc, found, slot, at, CodeDoubt::NotListed, row, codes)
}

fn push_picks(alloc: Global, found: &mut Vec<Warning>, slot: &Slot) -> Result<(), NoMemory>
    ensures { OnOk result (found.new.items ≡ found.old.items ++ rows.picks_warnings slot.now slot.now.picks) }
{
    let picks = slot.picks.as_slice();
    for i in 0..picks.len() {
        push_pick(alloc, found, slot, &picks[i])?;
    }
    Ok(())
}

/// Adds the warnings of a segment position.
pub(crate) fn push_slot(
    alloc: Global,
    found: &mut Vec<Warning>,
    slot: &Slot,
) -> Result<(), NoMemory>
    ensures { OnOk result (found.new.items ≡ found.old.items ++ rows.slot_warnings slot.now) }
{
    push_elements(alloc, found, slot)?;
    push_picks(alloc, found, slot)
}
