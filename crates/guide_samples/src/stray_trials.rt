//! Trials of segments that the new guide has no place for: of a node that is gone, and of one that picks fewer codes.
use crate::attempts::Pair;
use crate::build::{Piece, copy_texts, piece_of};
use crate::plan::Plan;
use crate::spot_trials::push_slots;
use crate::trial::{Expected, Sample, Trial, push_trial, run_of, segment};
use crate::write::Change;
use guide_tree::{Pick, Slot};
use hub_kinds::{NoMemory, SegmentCode, Text};
use std::alloc::Global;

/// Before how many segments of a sample a stray one is tried.
const MOST_PLACES: usize = 60;
/// How many codes of a pick are tried.
const MOST_CODES: usize = 40;

fn push_stray(alloc: Global, trials: &mut Vec<Trial>, change: Change) -> Result<(), NoMemory> {
    let expected = Expected::of_segment(SegmentCode::OutOfSequence, 0);
    push_trial(alloc, trials, expected, change)
}

/// The segment of the old guide that is gone, or the first of the loop that is.
fn gone_slot<'g>(pair: &Pair<'g, '_>) -> Option<&'g Slot> {
    let number = pair.difference.at.node;
    match pair.old.slot(number) {
        None => pair.old.slot(number.saturating_add(1)),
        Some(slot) => Some(slot),
    }
}

/// Trials with the segment that is gone, before each of the first segments of a sample and after the last.
pub(crate) fn push_gone(
    alloc: Global,
    pair: &Pair,
    sample: &Sample,
) -> Result<Vec<Trial>, NoMemory> {
    let mut trials = Vec::new(alloc);
    let Some(slot) = gone_slot(pair) else {
        return Ok(trials);
    };
    let plan = Plan::new(alloc, pair.old, false)?;
    let Some(piece) = piece_of(alloc, &plan, slot)? else {
        return Ok(trials);
    };
    let text = segment(alloc, slot.id.as_slice(), piece.texts.as_slice())?;
    for at in 0..sample.pieces.len().min(MOST_PLACES).saturating_add(1) {
        let copy = Vec::from_slice(alloc, text.as_slice())?;
        push_stray(alloc, &mut trials, Change::Before(at, copy))?;
    }
    Ok(trials)
}

/// The segment of a piece with a code as the element of a pick.
fn with_code(
    alloc: Global,
    piece: &Piece,
    position: u32,
    code: &[u8],
) -> Result<Vec<u8>, NoMemory> {
    let mut texts = copy_texts(alloc, piece.texts.as_slice())?;
    let index = position.saturating_sub(1) as usize;
    if let Some(place) = texts.get_mut(index) {
        *place = Vec::from_slice(alloc, code)?;
    }
    segment(alloc, piece.slot.id.as_slice(), texts.as_slice())
}

/// Trials with each of some codes in the piece at an index, and in a segment after it.
fn push_codes(
    alloc: Global,
    trials: &mut Vec<Trial>,
    piece: &Piece,
    at: usize,
    position: u32,
    codes: &[Text],
) -> Result<(), NoMemory> {
    for code in codes.iter().take(MOST_CODES) {
        let text = with_code(alloc, piece, position, code.as_slice())?;
        let copy = Vec::from_slice(alloc, text.as_slice())?;
        push_stray(alloc, trials, Change::Instead(at, text))?;
        push_stray(alloc, trials, Change::Before(at.saturating_add(1), copy))?;
    }
    Ok(())
}

/// Trials with the codes of some picks of the old guide.
fn push_picks(
    alloc: Global,
    trials: &mut Vec<Trial>,
    piece: &Piece,
    at: usize,
    picks: &[Pick],
) -> Result<(), NoMemory> {
    for pick in picks {
        push_codes(
            alloc,
            trials,
            piece,
            at,
            pick.position,
            pick.codes.as_slice(),
        )?;
    }
    Ok(())
}

/// Adds trials of the segment of which the guides differ, with codes that the old guide picks.
pub(crate) fn push_picked(
    alloc: Global,
    trials: &mut Vec<Trial>,
    pair: &Pair,
    sample: &Sample,
) -> Result<(), NoMemory> {
    let number = pair.difference.at.node;
    let Some((at, _)) = run_of(sample.pieces, number, number) else {
        return Ok(());
    };
    let Some(piece) = sample.pieces.get(at) else {
        return Ok(());
    };
    let mut slots = Vec::new(alloc);
    let id = piece.slot.id.as_slice();
    push_slots(&mut slots, pair.old.rows().nodes.as_slice(), id)?;
    for slot in slots.as_slice() {
        push_picks(alloc, trials, piece, at, slot.picks.as_slice())?;
    }
    Ok(())
}
