//! Trials of the segments of a slot: their elements, the conditions on these, and one element more.
use crate::build::{copy_texts, filled, only_present, texts_of};
use crate::element_trials::push_element;
use crate::presence::{bit, bits_of, first_of, hold, is_broken_once, needed};
use crate::trial::{Expected, Sample, Target, Trial, push_trial, segment};
use crate::write::Change;
use guide_tree::{Condition, Relation};
use hub_kinds::{ElementCode, NoMemory, SegmentCode};
use std::alloc::Global;

/// Whether elements break one condition at one position, and no other condition.
fn breaks_alone(conditions: &[Condition], index: usize, present: u64) -> bool {
    for k in 0..conditions.len() {
        if k == index {
            if !is_broken_once(&conditions[k], present) {
                return false;
            }
        } else if crate::presence::is_broken(&conditions[k], present) {
            return false;
        }
    }
    true
}

/// Elements with which just one condition is broken, if some are known: `others` are there whatever it says.
fn breaking(conditions: &[Condition], index: usize, others: u64, can: u64) -> Option<u64> {
    let condition = conditions.get(index)?;
    let positions = condition.positions.as_slice();
    let all = bits_of(positions) & can;
    let first = first_of(positions) & can;
    for position in positions {
        let own = bit(*position) & can;
        for kept in [all & !own, first | own, own, 0] {
            if breaks_alone(conditions, index, others | kept) {
                return Some(others | kept);
            }
        }
    }
    None
}

fn code_of(relation: Relation) -> ElementCode {
    match relation {
        Relation::Exclusion => ElementCode::ExclusionViolated,
        Relation::Paired | Relation::Required | Relation::Conditional | Relation::ListConditional =>
            ElementCode::ConditionalMissing,
    }
}

/// A trial of one condition.
fn push_condition(
    alloc: Global,
    trials: &mut Vec<Trial>,
    target: &Target,
    texts: &[Vec<u8>],
    index: usize,
) -> Result<(), NoMemory> {
    let slot = target.piece.slot;
    let conditions = slot.conditions.as_slice();
    let Some(condition) = conditions.get(index) else {
        return Ok(());
    };
    let own = bits_of(condition.positions.as_slice());
    let there = filled(target.piece.texts.as_slice());
    let others = (there & !own) | needed(slot);
    let Some(present) = breaking(conditions, index, others, filled(texts)) else {
        return Ok(());
    };
    let kept = only_present(alloc, texts, present)?;
    let expected = Expected::of_element(code_of(condition.relation), slot.number, own);
    let text = segment(alloc, slot.id.as_slice(), kept.as_slice())?;
    push_trial(alloc, trials, expected, Change::Instead(target.at, text))
}

/// A trial with an element after the last row.
fn push_extra(alloc: Global, trials: &mut Vec<Trial>, target: &Target) -> Result<(), NoMemory> {
    let slot = target.piece.slot;
    let mut texts = copy_texts(alloc, target.piece.texts.as_slice())?;
    texts.push(Vec::from_slice(alloc, b"X")?)?;
    let text = segment(alloc, slot.id.as_slice(), texts.as_slice())?;
    let after = Target {
        index: slot.elements.as_slice().len(),
        ..*target
    };
    push_trial(
        alloc,
        trials,
        after.expected(ElementCode::TooManyElements),
        Change::Instead(target.at, text),
    )
}

/// Trials of the piece with an index, by the elements and conditions of its slot.
pub(crate) fn push_slot(
    alloc: Global,
    trials: &mut Vec<Trial>,
    sample: &Sample,
    at: usize,
) -> Result<(), NoMemory> {
    let Some(piece) = sample.pieces.get(at) else {
        return Ok(());
    };
    let elements = piece.slot.elements.as_slice();
    for index in 0..elements.len() {
        let target = Target { piece, at, index };
        push_element(alloc, trials, &target, &elements[index])?;
    }
    let target = Target {
        piece,
        at,
        index: 0,
    };
    push_conditions(alloc, trials, sample, &target)?;
    push_extra(alloc, trials, &target)
}

fn push_conditions(
    alloc: Global,
    trials: &mut Vec<Trial>,
    sample: &Sample,
    target: &Target,
) -> Result<(), NoMemory> {
    let slot = target.piece.slot;
    let texts = texts_of(alloc, sample.plan, slot, true)?;
    for index in 0..slot.conditions.as_slice().len() {
        push_condition(alloc, trials, target, texts.as_slice(), index)?;
    }
    Ok(())
}
