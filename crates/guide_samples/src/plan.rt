//! What a sample of a guide is built by: how much of the guide it has, and what the guide's dependencies force on it.
use crate::presence::{has, needed};
use crate::values::{Spot, element_text, triggers};
use guide_tree::{Dependency, DependencyKind, Guide, GuideRows, Slot};
use hub_kinds::NoMemory;
use std::alloc::Global;

/// A slot, or an element of it, that a dependency needs or bans whatever code is chosen.
#[derive(Clone, Copy)]
pub(crate) struct Forced {
    pub kind: DependencyKind,
    pub slot: u32,
    /// The position of the element; 0 for the whole slot.
    pub element: u32,
}

/// How a sample is built.
#[derive(Drop)]
pub(crate) struct Plan<'g> {
    pub rows: &'g GuideRows,
    /// Whether it has all that the guide lets it have, and not only what it must.
    pub full: bool,
    pub forced: Vec<Forced>,
}

impl<'g> Plan<'g> {
    pub(crate) fn new(alloc: Global, guide: &'g Guide, full: bool) -> Result<Plan<'g>, NoMemory> {
        let rows = guide.rows();
        let mut forced = Vec::new(alloc);
        for dependency in rows.depends.as_slice() {
            if let Some(found) = forced_by(alloc, guide, dependency, full)? {
                forced.push(found)?;
            }
        }
        Ok(Plan { rows, full, forced })
    }

    /// Whether a slot with a number from `first` to `last` is needed or banned as a whole.
    pub(crate) fn forces(&self, kind: DependencyKind, first: u32, last: u32) -> bool {
        for forced in self.forced.as_slice() {
            if forced.kind == kind
                && forced.element == 0
                && first <= forced.slot
                && forced.slot <= last
            {
                return true;
            }
        }
        false
    }

    /// The elements of a slot that are needed or banned.
    pub(crate) fn forced_elements(&self, kind: DependencyKind, slot: u32) -> u64 {
        let mut bits = 0;
        for forced in self.forced.as_slice() {
            if forced.kind == kind && forced.slot == slot && forced.element != 0 {
                bits |= crate::presence::bit(forced.element);
            }
        }
        bits
    }
}

/// What a dependency forces on a sample whose slot and element are there.
fn forced_by(
    alloc: Global,
    guide: &Guide,
    dependency: &Dependency,
    full: bool,
) -> Result<Option<Forced>, NoMemory> {
    let Some(slot) = guide.slot_labelled(dependency.slot.as_slice()) else {
        return Ok(None);
    };
    let Some(target) = guide.slot_labelled(dependency.target.as_slice()) else {
        return Ok(None);
    };
    let is_there = full || (slot.min >= 1 && has(needed(slot), dependency.at));
    if !is_there || !is_unavoidable(alloc, guide.rows(), slot, dependency)? {
        return Ok(None);
    }
    Ok(Some(Forced {
        kind: dependency.kind,
        slot: target.number,
        element: dependency.element,
    }))
}

/// Whether the value that is chosen for a dependency's element triggers it.
fn is_unavoidable(
    alloc: Global,
    rows: &GuideRows,
    slot: &Slot,
    dependency: &Dependency,
) -> Result<bool, NoMemory> {
    let spot = Spot {
        rows,
        slot,
        position: dependency.at,
    };
    let Some(index) = dependency.at.checked_sub(1) else {
        return Ok(false);
    };
    match slot.elements.as_slice().get(index as usize) {
        None => Ok(false),
        Some(element) => {
            let text = element_text(alloc, &spot, element, true)?;
            Ok(triggers(&spot, dependency, text.as_slice()))
        }
    }
}
