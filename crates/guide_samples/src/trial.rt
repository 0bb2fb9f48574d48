//! Trials: changes of a sample that break one rule of its guide, and the fault that is expected of each.
use crate::build::Piece;
use crate::plan::Plan;
use crate::presence::bit;
use crate::rule::Rule;
use crate::write::{Change, append_segment};
use hub_kinds::{ElementCode, NoMemory, SegmentCode};
use std::alloc::Global;

/// The sample that is changed, and what it was built by.
#[derive(Clone, Copy)]
pub(crate) struct Sample<'p, 'g> {
    pub plan: &'p Plan<'g>,
    pub pieces: &'p [Piece<'g>],
}

/// What a trial is expected to break: a rule, and for one of an element the elements that may show it.
#[derive(Clone, Copy)]
pub(crate) struct Expected {
    pub rule: Rule,
    pub elements: u64,
}

impl Expected {
    /// A fault of a segment or a loop.
    pub(crate) fn of_segment(code: SegmentCode, slot: u32) -> Expected {
        Expected {
            rule: Rule {
                code,
                slot,
                element: None,
            },
            elements: 0,
        }
    }

    /// A fault of one of these elements.
    pub(crate) fn of_element(code: ElementCode, slot: u32, elements: u64) -> Expected {
        Expected {
            rule: Rule {
                code: SegmentCode::ElementErrors,
                slot,
                element: Some(code),
            },
            elements,
        }
    }
}

/// Changes that break one rule.
#[derive(Drop)]
pub(crate) struct Trial {
    pub expected: Expected,
    pub changes: Vec<Change>,
}

/// Adds a trial of one change.
pub(crate) fn push_trial(
    alloc: Global,
    trials: &mut Vec<Trial>,
    expected: Expected,
    change: Change,
) -> Result<(), NoMemory> {
    let mut changes = Vec::new(alloc);
    changes.push(change)?;
    trials.push(Trial { expected, changes })?;
    Ok(())
}

/// The first pieces of a sample in a row whose slots have a number from `first` to `last`.
pub(crate) fn run_of(pieces: &[Piece], first: u32, last: u32) -> Option<(usize, usize)> {
    let mut from = None;
    for k in 0..pieces.len() {
        let number = pieces[k].slot.number;
        let is_inside = first <= number && number <= last;
        match from {
            None if is_inside => from = Some(k),
            Some(start) if !is_inside => return Some((start, k)),
            _ => {}
        }
    }
    from.map(|start| (start, pieces.len()))
}

/// An element of a piece that is changed.
#[derive(Clone, Copy)]
pub(crate) struct Target<'p, 'g> {
    pub piece: &'p Piece<'g>,
    /// The index of the piece in the sample.
    pub at: usize,
    /// The index of the element, from 0.
    pub index: usize,
}

impl<'p, 'g> Target<'p, 'g> {
    /// The element's position, from 1.
    pub(crate) fn position(&self) -> u32 {
        match u32::try_from(self.index) {
            Ok(index) => index.saturating_add(1),
            Err(_) => u32::MAX,
        }
    }

    /// The element's text.
    pub(crate) fn text(&self) -> &'p [u8] {
        match self.piece.texts.get(self.index) {
            None => b"",
            Some(text) => text.as_slice(),
        }
    }

    /// The segment with another text as this element.
    pub(crate) fn with_text(&self, alloc: Global, text: &[u8]) -> Result<Vec<u8>, NoMemory> {
        let mut texts = crate::build::copy_texts(alloc, self.piece.texts.as_slice())?;
        let copy = Vec::from_slice(alloc, text)?;
        if let Some(place) = texts.get_mut(self.index) {
            *place = copy;
        }
        segment(alloc, self.piece.slot.id.as_slice(), texts.as_slice())
    }

    /// The fault that this element is expected to show.
    pub(crate) fn expected(&self, code: ElementCode) -> Expected {
        Expected::of_element(code, self.piece.slot.number, bit(self.position()))
    }

    /// Adds a trial that writes a text as this element.
    pub(crate) fn push(
        &self,
        alloc: Global,
        trials: &mut Vec<Trial>,
        code: ElementCode,
        text: &[u8],
    ) -> Result<(), NoMemory> {
        let change = Change::Instead(self.at, self.with_text(alloc, text)?);
        push_trial(alloc, trials, self.expected(code), change)
    }
}

/// A segment with these elements.
pub(crate) fn segment(alloc: Global, id: &[u8], texts: &[Vec<u8>]) -> Result<Vec<u8>, NoMemory> {
    let mut out = Vec::new(alloc);
    append_segment(&mut out, id, texts)?;
    Ok(out)
}
