//! Which elements of a segment are there, as bits by their positions, so that the conditions of its slot hold.
use guide_tree::{Condition, Element, Relation, Requirement, Slot};

/// The number of positions that have bits; a slot has fewer elements.
const POSITIONS: u32 = 64;

/// The bit of a position.
pub(crate) fn bit(position: u32) -> u64 {
    if position < POSITIONS {
        1 << position
    } else {
        0
    }
}

pub(crate) fn has(bits: u64, position: u32) -> bool {
    bits & bit(position) != 0
}

/// The bits of some positions.
pub(crate) fn bits_of(positions: &[u32]) -> u64 {
    let mut bits = 0;
    for position in positions {
        bits |= bit(*position);
    }
    bits
}

/// The bit of the first of some positions.
pub(crate) fn first_of(positions: &[u32]) -> u64 {
    match positions.first() {
        None => 0,
        Some(position) => bit(*position),
    }
}

/// The bit of the first of some positions whose bit is set in `bits`.
fn first_among(positions: &[u32], bits: u64) -> u64 {
    for position in positions {
        if has(bits, *position) {
            return bit(*position);
        }
    }
    0
}

fn is_one(bits: u64) -> bool {
    bits != 0 && bits & (bits - 1) == 0
}

/// Whether a condition is broken where these elements are there (X12.6, relational conditions).
pub(crate) fn is_broken(condition: &Condition, present: u64) -> bool {
    let positions = condition.positions.as_slice();
    let all = bits_of(positions);
    let first = first_of(positions);
    let rest = all & !first;
    let there = present & all;
    match condition.relation {
        Relation::Paired => there != 0 && there != all,
        Relation::Required => there == 0,
        Relation::Exclusion => there != 0 && !is_one(there),
        Relation::Conditional => present & first != 0 && present & rest != rest,
        Relation::ListConditional => present & first != 0 && present & rest == 0,
    }
}

/// Whether a condition is broken at one position alone.
pub(crate) fn is_broken_once(condition: &Condition, present: u64) -> bool {
    let positions = condition.positions.as_slice();
    let all = bits_of(positions);
    let there = present & all;
    let rest = all & !first_of(positions);
    is_broken(condition, present)
        && match condition.relation {
            Relation::Paired => is_one(all & !there),
            Relation::Conditional => is_one(rest & !there),
            Relation::Exclusion => is_one(there & (there.saturating_sub(1))),
            Relation::Required | Relation::ListConditional => true,
        }
}

/// Whether all conditions hold where these elements are there.
pub(crate) fn hold(conditions: &[Condition], present: u64) -> bool {
    for condition in conditions {
        if is_broken(condition, present) {
            return false;
        }
    }
    true
}

/// The elements that a broken condition lacks, where they can be there.
fn lacking(condition: &Condition, present: u64, can: u64) -> u64 {
    if !is_broken(condition, present) {
        return 0;
    }
    let positions = condition.positions.as_slice();
    let rest = bits_of(positions) & !first_of(positions);
    match condition.relation {
        Relation::Paired | Relation::Conditional => bits_of(positions) & can,
        Relation::Required => first_among(positions, can),
        Relation::Exclusion => 0,
        Relation::ListConditional => first_among(positions, can & rest),
    }
}

fn with_lacking(conditions: &[Condition], present: u64, can: u64) -> u64 {
    let mut grown = present;
    for condition in conditions {
        grown |= lacking(condition, grown, can);
    }
    grown
}

/// The elements with those that broken conditions lack, and those that these lack in turn.
pub(crate) fn grown(conditions: &[Condition], present: u64, can: u64) -> u64 {
    let mut all = present;
    for _ in 0..POSITIONS {
        all = with_lacking(conditions, all, can);
    }
    all
}

fn is_mandatory(element: &Element) -> bool {
    match element {
        Element::NotUsed(_) => false,
        Element::Simple(row, _) => row.requirement == Requirement::Mandatory,
        Element::Composite(row) => row.requirement == Requirement::Mandatory,
    }
}

/// The elements that a segment of a slot must have: the mandatory ones, and those by which it picks.
pub(crate) fn needed(slot: &Slot) -> u64 {
    let mut bits = 0;
    let mut position = 0;
    for element in slot.elements.as_slice() {
        position = next(position);
        if is_mandatory(element) {
            bits |= bit(position);
        }
    }
    bits | picked(slot)
}

/// The position after this one.
pub(crate) fn next(position: u32) -> u32 {
    position.saturating_add(1)
}

fn picked(slot: &Slot) -> u64 {
    let mut bits = 0;
    for pick in slot.picks.as_slice() {
        bits |= bit(pick.position);
    }
    bits
}

/// The elements that are there in a sample's segment: the fewest, or as many as the conditions allow; none if the conditions can't
/// be met so.
pub(crate) fn chosen(conditions: &[Condition], must: u64, can: u64, full: bool) -> Option<u64> {
    let mut present = grown(conditions, must, can);
    if must & !can != 0 || !hold(conditions, present) {
        return None;
    }
    if !full {
        return Some(present);
    }
    for position in 0..POSITIONS {
        let more = grown(conditions, present | (bit(position) & can), can);
        if hold(conditions, more) {
            present = more;
        }
    }
    Some(present)
}
