//! Trials of a set as a whole: segments that the guide doesn't have, their order, and its dependencies.
use crate::levels::simple_row;
use crate::trial::{Expected, Sample, Target, Trial, push_trial, run_of, segment};
use crate::values::{is_value, picked_codes};
use crate::write::Change;
use guide_tree::{Dependency, DependencyKind, Guide, Slot};
use hub_kinds::{ElementCode, NoMemory, SegmentCode, Text, contains_text};
use std::alloc::Global;

/// A trial with a segment that has no slot, before the piece with an index.
fn push_stray(
    alloc: Global,
    trials: &mut Vec<Trial>,
    at: usize,
    code: SegmentCode,
    text: Vec<u8>,
) -> Result<(), NoMemory> {
    push_trial(
        alloc,
        trials,
        Expected::of_segment(code, 0),
        Change::Before(at, text),
    )
}

/// A segment of one element.
fn short_segment(alloc: Global, id: &[u8]) -> Result<Vec<u8>, NoMemory> {
    let mut text = Vec::from_slice(alloc, id)?;
    text.extend_from_slice(b"*X")?;
    Ok(text)
}

/// Trials with a segment that the guide's dictionary has, with an unknown one, and with the first segment again at the end.
fn push_strays(alloc: Global, trials: &mut Vec<Trial>, sample: &Sample) -> Result<(), NoMemory> {
    let dictionary = sample.plan.rows.head.dictionary.as_slice();
    let count = sample.pieces.len();
    if let Some(id) = dictionary.first() {
        let text = short_segment(alloc, id.as_slice())?;
        push_stray(alloc, trials, count.min(1), SegmentCode::NotInSet, text)?;
    }
    let text = short_segment(alloc, b"QQQ")?;
    push_stray(
        alloc,
        trials,
        count.min(1),
        SegmentCode::UnrecognizedSegment,
        text,
    )?;
    let Some(first) = sample.pieces.first() else {
        return Ok(());
    };
    let text = segment(alloc, first.slot.id.as_slice(), first.texts.as_slice())?;
    push_stray(alloc, trials, count, SegmentCode::OutOfSequence, text)
}

/// The first code of a dependency that its element may have.
fn trigger<'g>(slot: &Slot, dependency: &'g Dependency) -> Option<&'g [u8]> {
    let index = dependency.at.checked_sub(1)?;
    let row = simple_row(slot, index as usize)?;
    let picked: Option<&[Text]> = picked_codes(slot, dependency.at);
    for code in dependency.codes.as_slice() {
        let is_picked = match picked {
            None => true,
            Some(codes) => contains_text(codes, code.as_slice()),
        };
        if is_picked && is_value(row, code.as_slice()) {
            return Some(code.as_slice());
        }
    }
    None
}

/// What a dependency reports of a slot, or of an element of it.
fn expected_of(target: &Target, dependency: &Dependency) -> Expected {
    if dependency.element == 0 {
        let code = match dependency.kind {
            DependencyKind::Need => SegmentCode::DependentMissing,
            DependencyKind::Ban => SegmentCode::DependentNotUsedPresent,
        };
        return Expected::of_segment(code, target.piece.slot.number);
    }
    target.expected(match dependency.kind {
        DependencyKind::Need => ElementCode::DependentMissing,
        DependencyKind::Ban => ElementCode::DependentNotUsedPresent,
    })
}

/// Adds the change that takes away what a dependency needs; what it bans is there in a complete sample.
fn push_taken(
    alloc: Global,
    changes: &mut Vec<Change>,
    sample: &Sample,
    target: &Target,
    dependency: &Dependency,
) -> Result<(), NoMemory> {
    if dependency.kind == DependencyKind::Ban {
        return Ok(());
    }
    let number = target.piece.slot.number;
    if dependency.element != 0 {
        changes.push(Change::Instead(target.at, target.with_text(alloc, b"")?))?;
    } else if let Some((from, to)) = run_of(sample.pieces, number, number) {
        changes.push(Change::Without(from, to))?;
    }
    Ok(())
}

/// The first piece of a slot that a label names, and an element of it by its position.
fn target_of<'p, 'g>(
    guide: &Guide,
    sample: &Sample<'p, 'g>,
    label: &[u8],
    position: u32,
) -> Option<Target<'p, 'g>> {
    let number = guide.slot_labelled(label)?.number;
    let (at, _) = run_of(sample.pieces, number, number)?;
    Some(Target {
        piece: sample.pieces.get(at)?,
        at,
        index: position.saturating_sub(1) as usize,
    })
}

/// A trial that breaks one dependency.
fn push_dependency(
    alloc: Global,
    trials: &mut Vec<Trial>,
    guide: &Guide,
    sample: &Sample,
    dependency: &Dependency,
) -> Result<(), NoMemory> {
    let Some(source) = target_of(guide, sample, dependency.slot.as_slice(), dependency.at) else {
        return Ok(());
    };
    let label = dependency.target.as_slice();
    let Some(target) = target_of(guide, sample, label, dependency.element) else {
        return Ok(());
    };
    let Some(code) = trigger(source.piece.slot, dependency) else {
        return Ok(());
    };
    let mut changes = Vec::new(alloc);
    push_taken(alloc, &mut changes, sample, &target, dependency)?;
    changes.push(Change::Instead(source.at, source.with_text(alloc, code)?))?;
    trials.push(Trial {
        expected: expected_of(&target, dependency),
        changes,
    })?;
    Ok(())
}

/// Trials of the dependencies of a guide, and of segments that it doesn't have.
pub(crate) fn push_set(
    alloc: Global,
    trials: &mut Vec<Trial>,
    guide: &Guide,
    sample: &Sample,
) -> Result<(), NoMemory> {
    for dependency in sample.plan.rows.depends.as_slice() {
        push_dependency(alloc, trials, guide, sample, dependency)?;
    }
    push_strays(alloc, trials, sample)
}
