//! Trials of the elements of a segment: what is wrong by their rows.
use crate::trial::{Target, Trial};
use crate::values::{append_component, is_plain, picked_codes, value_length};
use guide_tree::{Component, CompositeRow, Element, ElementType, Requirement, SimpleRow};
use hub_kinds::{ElementCode, NoMemory};
use std::alloc::Global;

/// How many repetitions are written at most.
const MOST_REPEATED: u32 = 20;
/// The greatest length of a value that is written too long.
const LONGEST_VALUE: u32 = 500;

/// Whether a row's lengths let it have a text.
fn has_length(row: &SimpleRow, text: &[u8]) -> bool {
    let length = value_length(row.data_type, text);
    row.min as usize <= length && length <= row.max as usize
}

fn is_unlisted(row: &SimpleRow, text: &[u8]) -> bool {
    match &row.codes {
        None => false,
        Some(listed) => {
            !listed.used.contains(text)
                && match &listed.unused {
                    None => true,
                    Some(unused) => !unused.contains(text),
                }
        }
    }
}

/// A text of a row's least length that is no code of it; empty if none is known.
fn other_code(alloc: Global, row: &SimpleRow) -> Result<Vec<u8>, NoMemory> {
    for byte in b"QZXJ98" {
        let text = repeated(alloc, *byte, row.min)?;
        if is_unlisted(row, text.as_slice()) && has_length(row, text.as_slice()) {
            return Ok(text);
        }
    }
    Ok(Vec::new(alloc))
}

/// The first code that a row knows and doesn't use; empty if there is none.
fn unused_code(row: &SimpleRow) -> &[u8] {
    let Some(listed) = &row.codes else {
        return b"";
    };
    let Some(unused) = &listed.unused else {
        return b"";
    };
    match unused.as_slice().first() {
        Some(code) if is_plain(code.as_slice()) && has_length(row, code.as_slice()) => {
            code.as_slice()
        }
        _ => b"",
    }
}

/// That many times a byte.
pub(crate) fn repeated(alloc: Global, byte: u8, count: u32) -> Result<Vec<u8>, NoMemory> {
    let mut text = Vec::new(alloc);
    for _ in 0..count {
        text.push(byte)?;
    }
    Ok(text)
}

/// A trial of a text, unless it is empty.
fn push_some(
    alloc: Global,
    trials: &mut Vec<Trial>,
    target: &Target,
    code: ElementCode,
    text: &[u8],
) -> Result<(), NoMemory> {
    if text.is_empty() {
        return Ok(());
    }
    target.push(alloc, trials, code, text)
}

/// The first of some texts that a row's lengths let it have; empty if there is none.
fn fitting<'t>(row: &SimpleRow, texts: &[&'t [u8]]) -> &'t [u8] {
    for text in texts {
        if has_length(row, text) {
            return text;
        }
    }
    b""
}

/// Trials of a value that is too long or too short.
fn push_lengths(
    alloc: Global,
    trials: &mut Vec<Trial>,
    target: &Target,
    row: &SimpleRow,
    byte: u8,
) -> Result<(), NoMemory> {
    if row.max < LONGEST_VALUE {
        let text = repeated(alloc, byte, row.max + 1)?;
        target.push(alloc, trials, ElementCode::TooLong, text.as_slice())?;
    }
    let text = repeated(alloc, byte, row.min.saturating_sub(1))?;
    push_some(
        alloc,
        trials,
        target,
        ElementCode::TooShort,
        text.as_slice(),
    )
}

/// A trial of a number with a letter.
fn push_letter(
    alloc: Global,
    trials: &mut Vec<Trial>,
    target: &Target,
    row: &SimpleRow,
) -> Result<(), NoMemory> {
    let mut text = repeated(alloc, b'1', row.min.min(LONGEST_VALUE))?;
    text.push(b'X')?;
    target.push(
        alloc,
        trials,
        ElementCode::InvalidCharacter,
        text.as_slice(),
    )
}

/// Trials of values that a row without codes doesn't take.
fn push_values(
    alloc: Global,
    trials: &mut Vec<Trial>,
    target: &Target,
    row: &SimpleRow,
) -> Result<(), NoMemory> {
    match row.data_type {
        ElementType::Text | ElementType::Identifier => {
            push_lengths(alloc, trials, target, row, b'X')
        }
        ElementType::Number(_) | ElementType::Decimal => {
            push_lengths(alloc, trials, target, row, b'1')?;
            push_letter(alloc, trials, target, row)
        }
        ElementType::Date => {
            let text = fitting(row, &[b"20260230".as_slice(), b"260230".as_slice()]);
            push_some(alloc, trials, target, ElementCode::InvalidDate, text)
        }
        ElementType::Time => {
            let text = fitting(
                row,
                &[
                    b"2460".as_slice(),
                    b"246000".as_slice(),
                    b"2460000".as_slice(),
                    b"24600000".as_slice(),
                ],
            );
            push_some(alloc, trials, target, ElementCode::InvalidTime, text)
        }
    }
}

/// A trial of a value that occurs once more than it may.
fn push_repeated(
    alloc: Global,
    trials: &mut Vec<Trial>,
    target: &Target,
    repeat: u32,
) -> Result<(), NoMemory> {
    if repeat < 2 || repeat > MOST_REPEATED {
        return Ok(());
    }
    let mut text = Vec::from_slice(alloc, target.text())?;
    for _ in 0..repeat {
        text.push(b'^')?;
        text.extend_from_slice(target.text())?;
    }
    target.push(
        alloc,
        trials,
        ElementCode::TooManyRepetitions,
        text.as_slice(),
    )
}

/// Trials of a simple element.
fn push_simple(
    alloc: Global,
    trials: &mut Vec<Trial>,
    target: &Target,
    row: &SimpleRow,
    repeat: u32,
) -> Result<(), NoMemory> {
    if row.requirement == Requirement::Mandatory {
        target.push(alloc, trials, ElementCode::RequiredMissing, b"")?;
    }
    if target.text().is_empty() {
        return Ok(());
    }
    if row.codes.is_some() {
        let other = other_code(alloc, row)?;
        push_some(
            alloc,
            trials,
            target,
            ElementCode::InvalidCode,
            other.as_slice(),
        )?;
        push_some(
            alloc,
            trials,
            target,
            ElementCode::CodeNotUsed,
            unused_code(row),
        )?;
    } else {
        push_values(alloc, trials, target, row)?;
    }
    push_repeated(alloc, trials, target, repeat)
}

/// The component of a text with an index, from 0.
pub(crate) fn component_at(text: &[u8], index: usize) -> &[u8] {
    let mut parts = text.split(|byte| *byte == b'>');
    parts.nth(index).unwrap_or(b"")
}

/// A composite text of `count` components at most, with another one at an index.
pub(crate) fn with_component(
    alloc: Global,
    text: &[u8],
    count: usize,
    index: usize,
    part: &[u8],
) -> Result<Vec<u8>, NoMemory> {
    let mut out = Vec::new(alloc);
    let mut separators = 0;
    for k in 0..count {
        let shown = if k == index {
            part
        } else {
            component_at(text, k)
        };
        append_component(&mut out, &mut separators, k, shown)?;
    }
    Ok(out)
}

/// Trials of a component of a composite element.
fn push_component(
    alloc: Global,
    trials: &mut Vec<Trial>,
    target: &Target,
    row: &SimpleRow,
    count: usize,
    index: usize,
) -> Result<(), NoMemory> {
    if row.requirement == Requirement::Mandatory {
        let text = with_component(alloc, target.text(), count, index, b"")?;
        push_some(
            alloc,
            trials,
            target,
            ElementCode::RequiredMissing,
            text.as_slice(),
        )?;
    }
    let other = other_code(alloc, row)?;
    if other.is_empty() {
        return Ok(());
    }
    let text = with_component(alloc, target.text(), count, index, other.as_slice())?;
    target.push(alloc, trials, ElementCode::InvalidCode, text.as_slice())
}

/// Trials of a composite element.
fn push_composite(
    alloc: Global,
    trials: &mut Vec<Trial>,
    target: &Target,
    row: &CompositeRow,
) -> Result<(), NoMemory> {
    if row.requirement == Requirement::Mandatory {
        target.push(alloc, trials, ElementCode::RequiredMissing, b"")?;
    }
    if target.text().is_empty() {
        return Ok(());
    }
    let components = row.components.as_slice();
    for k in 0..components.len() {
        if let Component::Simple(part) = &components[k] {
            push_component(alloc, trials, target, part, components.len(), k)?;
        }
    }
    let more = components.len().saturating_add(1);
    let text = with_component(alloc, target.text(), more, components.len(), b"X")?;
    target.push(
        alloc,
        trials,
        ElementCode::TooManyComponents,
        text.as_slice(),
    )
}

/// Trials of an element by its row.
pub(crate) fn push_element(
    alloc: Global,
    trials: &mut Vec<Trial>,
    target: &Target,
    element: &Element,
) -> Result<(), NoMemory> {
    if picked_codes(target.piece.slot, target.position()).is_some() {
        return Ok(());
    }
    match element {
        Element::NotUsed(_) => target.push(alloc, trials, ElementCode::NotUsedPresent, b"X"),
        Element::Simple(row, repeat) => push_simple(alloc, trials, target, row, *repeat),
        Element::Composite(row) => push_composite(alloc, trials, target, row),
    }
}
