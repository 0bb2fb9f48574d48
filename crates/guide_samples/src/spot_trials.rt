//! Trials of an element of which two guides differ: values that the old guide may take and the new one doesn't.
use crate::attempts::Pair;
use crate::build::copy_texts;
use crate::element_trials::{component_at, repeated, with_component};
use crate::trial::{Expected, Sample, Target, Trial, push_trial, run_of, segment};
use crate::values::{Spot, element_text};
use crate::write::Change;
use guide_tree::{Element, ElementType, Node, Slot};
use guide_widening::{Difference, Key, Value};
use hub_kinds::{ElementCode, NoMemory};
use std::alloc::Global;

/// The greatest length of a value that is tried.
const LONGEST_VALUE: u64 = 2_000;
/// How many repetitions are written at most.
const MOST_REPEATED: u64 = 20;
/// How many segments of the old guide give values.
const MOST_SLOTS: usize = 20;

/// Adds the segments with an id among nodes and what is in them.
pub(crate) fn push_slots<'g>(
    found: &mut Vec<&'g Slot>,
    nodes: &'g [Node],
    id: &[u8],
) -> Result<(), NoMemory> {
    for node in nodes {
        match node {
            Node::Segment(slot) => {
                if slot.id.as_slice() == id && found.len() < MOST_SLOTS {
                    found.push(slot)?;
                }
            }
            Node::Loop(_, inner) => push_slots(found, inner, id)?,
        }
    }
    Ok(())
}

/// Adds a text to others, unless it is empty.
fn push_text(alloc: Global, texts: &mut Vec<Vec<u8>>, text: &[u8]) -> Result<(), NoMemory> {
    if !text.is_empty() {
        texts.push(Vec::from_slice(alloc, text)?)?;
    }
    Ok(())
}

/// The element of a slot at an index, and its text by the guide, if it has one.
fn text_by(alloc: Global, pair: &Pair, slot: &Slot, index: usize) -> Result<Vec<u8>, NoMemory> {
    let Some(element) = slot.elements.as_slice().get(index) else {
        return Ok(Vec::new(alloc));
    };
    if let Element::NotUsed(_) = element {
        return Ok(Vec::new(alloc));
    }
    let spot = Spot {
        rows: pair.old.rows(),
        slot,
        position: u32::try_from(index.saturating_add(1)).unwrap_or(u32::MAX),
    };
    element_text(alloc, &spot, element, true)
}

/// Adds the texts that the old guide gives an element of segments with the same id.
fn push_old_texts(
    alloc: Global,
    texts: &mut Vec<Vec<u8>>,
    pair: &Pair,
    target: &Target,
) -> Result<(), NoMemory> {
    let mut slots = Vec::new(alloc);
    let id = target.piece.slot.id.as_slice();
    push_slots(&mut slots, pair.old.rows().nodes.as_slice(), id)?;
    for slot in slots.as_slice() {
        let text = text_by(alloc, pair, slot, target.index)?;
        let part = match pair.difference.at.component.checked_sub(1) {
            None => text.as_slice(),
            Some(before) => component_at(text.as_slice(), before as usize),
        };
        push_text(alloc, texts, part)?;
    }
    Ok(())
}

/// Adds a text of this length, in letters and in digits.
fn push_length(alloc: Global, texts: &mut Vec<Vec<u8>>, length: u64) -> Result<(), NoMemory> {
    if length == 0 || length > LONGEST_VALUE {
        return Ok(());
    }
    for byte in b"X1" {
        texts.push(repeated(alloc, *byte, length as u32)?)?;
    }
    Ok(())
}

/// Adds a text that has an element's own text once more than `most` times.
fn push_repeated(
    alloc: Global,
    texts: &mut Vec<Vec<u8>>,
    own: &[u8],
    most: u64,
) -> Result<(), NoMemory> {
    if most > MOST_REPEATED {
        return Ok(());
    }
    let mut text = Vec::from_slice(alloc, own)?;
    for _ in 0..most {
        text.push(b'^')?;
        text.extend_from_slice(own)?;
    }
    texts.push(text)?;
    Ok(())
}

/// The number that a guide says; 0 if it says none.
fn number_in(value: &Value) -> u64 {
    match value {
        Value::Number(number) => *number,
        _ => 0,
    }
}

/// Values of an element that may show how the guides differ of it.
fn values_of(alloc: Global, pair: &Pair, target: &Target) -> Result<Vec<Vec<u8>>, NoMemory> {
    let difference: &Difference = pair.difference;
    let mut texts = Vec::new(alloc);
    match (difference.key, &difference.old) {
        (Key::Code, Value::Text(code)) => push_text(alloc, &mut texts, code.as_slice())?,
        (Key::LeastLength, _) => {
            let length = number_in(&difference.new).saturating_sub(1);
            push_length(alloc, &mut texts, length)?;
        }
        (Key::GreatestLength, _) => {
            let length = number_in(&difference.new).saturating_add(1);
            push_length(alloc, &mut texts, length)?;
        }
        (Key::Wide, _) => {
            let length = u32::try_from(target.text().len()).unwrap_or(0);
            texts.push(repeated(alloc, 0xE9, length)?)?;
        }
        (Key::Repeat, _) => {
            push_repeated(alloc, &mut texts, target.text(), number_in(&difference.new))?;
        }
        (Key::Type, Value::Type(ElementType::Decimal)) => push_text(alloc, &mut texts, b"1.5")?,
        _ => push_old_texts(alloc, &mut texts, pair, target)?,
    }
    Ok(texts)
}

/// The segment of a target with a text as the element, or as a component of it.
fn with_value(
    alloc: Global,
    target: &Target,
    component: u64,
    value: &[u8],
) -> Result<Vec<u8>, NoMemory> {
    let mut texts = copy_texts(alloc, target.piece.texts.as_slice())?;
    for _ in texts.len()..target.index.saturating_add(1) {
        texts.push(Vec::new(alloc))?;
    }
    let text = match component.checked_sub(1) {
        None => Vec::from_slice(alloc, value)?,
        Some(before) => {
            let own = target.text();
            let count = own.iter().filter(|byte| **byte == b'>').count();
            let index = before as usize;
            let all = count.saturating_add(1).max(index.saturating_add(1));
            with_component(alloc, own, all, index, value)?
        }
    };
    if let Some(place) = texts.get_mut(target.index) {
        *place = text;
    }
    segment(alloc, target.piece.slot.id.as_slice(), texts.as_slice())
}

/// Adds trials of the element of which the guides differ, in the first segment of the node.
pub(crate) fn push_spot(
    alloc: Global,
    trials: &mut Vec<Trial>,
    pair: &Pair,
    sample: &Sample,
) -> Result<(), NoMemory> {
    let at = pair.difference.at;
    let Some(index) = at.element.checked_sub(1) else {
        return Ok(());
    };
    let Some((first, _)) = run_of(sample.pieces, at.node, at.node) else {
        return Ok(());
    };
    let Some(piece) = sample.pieces.get(first) else {
        return Ok(());
    };
    let target = Target {
        piece,
        at: first,
        index: (index as usize).min(MOST_ELEMENTS),
    };
    for value in values_of(alloc, pair, &target)?.as_slice() {
        let text = with_value(alloc, &target, at.component, value.as_slice())?;
        let expected = Expected::of_element(ElementCode::InvalidCode, at.node, 0);
        push_trial(alloc, trials, expected, Change::Instead(first, text))?;
    }
    Ok(())
}

/// How many elements a segment that is tried has at most.
const MOST_ELEMENTS: usize = 100;
