//! Trials of the hierarchy (X12.6, HL), at the last HL segment of a slot.
use crate::build::Piece;
use crate::levels::{element_at, is_listed, simple_row};
use crate::trial::{Sample, Target, Trial};
use crate::values::{is_value, picked_codes};
use guide_tree::{HlRule, Slot};
use hub_kinds::{ElementCode, NoMemory};
use std::alloc::Global;

/// A number that no HL segment of a sample has.
const NO_NUMBER: &[u8] = b"99999";

/// The last piece of a slot.
fn last_of(pieces: &[Piece], number: u32) -> Option<usize> {
    let mut found = None;
    for k in 0..pieces.len() {
        if pieces[k].slot.number == number {
            found = Some(k);
        }
    }
    found
}

/// The level of the HL segment with a number, HL01.
fn level_with<'a>(pieces: &'a [Piece], number: &[u8]) -> Option<&'a [u8]> {
    for piece in pieces {
        if piece.slot.id.as_slice() == b"HL".as_slice() && element_at(piece, 0) == number {
            return Some(element_at(piece, 2));
        }
    }
    None
}

/// A level that the guide doesn't list below a parent's.
fn other_level<'g>(rule: &'g HlRule, slot: &Slot, parent: Option<&[u8]>) -> Option<&'g [u8]> {
    let row = simple_row(slot, 2)?;
    for pair in rule.pairs.as_slice() {
        let level = pair.child.as_slice();
        if is_value(row, level) && !is_listed(rule, parent, level) {
            return Some(level);
        }
    }
    None
}

/// A trial with a level that isn't listed, unless the slot picks by it.
fn push_level(
    alloc: Global,
    trials: &mut Vec<Trial>,
    sample: &Sample,
    rule: &HlRule,
    target: &Target,
) -> Result<(), NoMemory> {
    if picked_codes(target.piece.slot, 3).is_some() {
        return Ok(());
    }
    let parent = level_with(sample.pieces, element_at(target.piece, 1));
    match other_level(rule, target.piece.slot, parent) {
        None => Ok(()),
        Some(level) => target.push(alloc, trials, ElementCode::CodeNotUsed, level),
    }
}

/// Trials of the last HL segment of a slot: its number, its parent, its level, and whether it has children.
pub(crate) fn push_hierarchy(
    alloc: Global,
    trials: &mut Vec<Trial>,
    sample: &Sample,
    slot: &Slot,
) -> Result<(), NoMemory> {
    let Some(at) = last_of(sample.pieces, slot.number) else {
        return Ok(());
    };
    let Some(piece) = sample.pieces.get(at) else {
        return Ok(());
    };
    let Some(rule) = &sample.plan.rows.hl else {
        return Ok(());
    };
    let wrong = ElementCode::PatternFailure;
    let number = Target {
        piece,
        at,
        index: 0,
    };
    number.push(alloc, trials, ElementCode::RequiredMissing, b"")?;
    number.push(alloc, trials, wrong, NO_NUMBER)?;
    let parent = Target { index: 1, ..number };
    parent.push(alloc, trials, wrong, NO_NUMBER)?;
    push_level(alloc, trials, sample, rule, &Target { index: 2, ..number })?;
    let children = Target { index: 3, ..number };
    let other: &[u8] = if children.text() == b"1".as_slice() {
        b"0"
    } else {
        b"1"
    };
    children.push(alloc, trials, wrong, other)
}
