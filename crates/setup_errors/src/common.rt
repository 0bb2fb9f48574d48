ghost use Rattle.std.specs.Prelude.{◌≡◌, true, IfOk, IfSome};
ghost use Rattle.std.specs.List.{list_all};
ghost use Rattle.hub_kinds.specs.Words.{contains_text};
ghost use Rattle.guide_tree.specs.Words.{element_at, fits};

use guide_tree::{Pick, Slot};
use hub_kinds::{Items, NoMemory, Text, Texts, copy_text};
use std::alloc::Global;

/// An element of a segment, or at 0 its id; one that isn't there is empty.
fn element(segment: &[Text], number: u32) -> &[u8]
    ensures { result.now ≡ element_at segment.entry.now number }
{
    match segment.get(number as usize) {
        None => &[],
        Some(text) => text.as_slice(),
    }
}

fn is_picked(pick: &Pick, segment: &[Text]) -> bool
    ensures { result ≡ contains_text pick.now.codes (element_at segment.now pick.now.position) }
{
    pick.codes.contains(element(segment, pick.position))
}

fn are_picked(picks: &[Pick], segment: &[Text]) -> bool
    ensures { result ≡ list_all (λ p. contains_text p.codes (element_at segment.now p.position)) picks.now }
{
    picks.iter().all(|pick| is_picked(pick, segment))
}

fn fits(slot: &Slot, segment: &[Text]) -> bool
    ensures { result ≡ fits slot.now segment.now }
{
    slot.id.as_slice() == element(segment, 0) && are_picked(slot.picks.as_slice(), segment)
}

fn pick_at(slot: &Slot, position: usize) -> Option<&Pick> {
    slot.picks
        .as_slice()
        .iter()
        .find(|pick| pick.position as usize == position)
}

fn first_code(pick: &Pick) -> &[u8] {
    match pick.codes.as_slice().first() {
        None => &[],
        Some(code) => code.as_slice(),
    }
}

/// The first code that both picks list.
fn common_code<'a>(pick: &'a Pick, other: &Pick) -> &'a [u8] {
    for code in pick.codes.as_slice() {
        if other.codes.contains(code.as_slice()) {
            return code.as_slice();
        }
    }
    &[]
}

/// What an element must be where a slot picks by it.
fn code_at<'a>(slot: &'a Slot, other: &'a Slot, position: usize) -> &'a [u8] {
    match (pick_at(slot, position), pick_at(other, position)) {
        (Some(pick), Some(other)) => common_code(pick, other),
        (Some(pick), None) => first_code(pick),
        (None, Some(pick)) => first_code(pick),
        (None, None) => &[],
    }
}

/// A segment with a code in each element by which a slot picks.
fn picked(alloc: Global, slot: &Slot, other: &Slot) -> Result<Texts, NoMemory> {
    let count = slot
        .elements
        .as_slice()
        .len()
        .max(other.elements.as_slice().len());
    let mut elements = Vec::new(alloc);
    elements.push(copy_text(alloc, slot.id.as_slice())?)?;
    for i in 0..count {
        elements.push(copy_text(alloc, code_at(slot, other, i + 1))?)?;
    }
    Ok(Items::from_vec(elements))
}

/// A segment that fits both slots, its id first and then its elements, made of the codes by which they pick; none where the picks of
/// one of them can't be met so.
pub fn common_segment(alloc: Global, slot: &Slot, other: &Slot) -> Result<Option<Texts>, NoMemory>
    ensures { IfOk result (λ found. IfSome found (λ s. (fits slot.now s ≡ true) × (fits other.now s ≡ true))) }
{
    let segment = picked(alloc, slot, other)?;
    if fits(slot, segment.as_slice()) && fits(other, segment.as_slice()) {
        return Ok(Some(segment));
    }
    Ok(None)
}
