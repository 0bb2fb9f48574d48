//! Values that the rows of a guide take.
use guide_tree::{
    Component, CompositeRow, Dependency, Element, ElementType, GuideRows, Requirement, SimpleRow,
    Slot,
};
use hub_kinds::{NoMemory, Text};
use moment::{is_date, is_digits, is_time};
use std::alloc::Global;

/// An element of a slot, for which a value is sought.
#[derive(Clone, Copy)]
pub(crate) struct Spot<'g> {
    pub rows: &'g GuideRows,
    pub slot: &'g Slot,
    pub position: u32,
}

/// Whether a byte divides a sample.
fn is_delimiter(byte: u8) -> bool {
    matches!(byte, b'*' | b'>' | b'^' | b'~')
}

/// How many bytes of a text count by its type: of a number its digits alone.
pub(crate) fn value_length(data_type: ElementType, text: &[u8]) -> usize {
    match data_type {
        ElementType::Number(_) | ElementType::Decimal => {
            text.iter().filter(|byte| byte.is_ascii_digit()).count()
        }
        _ => text.len(),
    }
}

pub(crate) fn is_plain(text: &[u8]) -> bool {
    text.iter().all(|byte| matches!(*byte, b' '..=b'~') && !is_delimiter(*byte))
}

fn has_form(data_type: ElementType, text: &[u8]) -> bool {
    match data_type {
        ElementType::Text | ElementType::Identifier => true,
        ElementType::Number(_) => is_digits(text),
        ElementType::Decimal => text
            .iter()
            .all(|byte| byte.is_ascii_digit() || *byte == b'.'),
        ElementType::Date => is_digits(text) && is_date(text),
        ElementType::Time => is_digits(text) && is_time(text),
    }
}

fn is_listed(row: &SimpleRow, text: &[u8]) -> bool {
    match &row.codes {
        None => true,
        Some(listed) => listed.used.contains(text),
    }
}

/// Whether a sample may have a text as a value of a row.
pub(crate) fn is_value(row: &SimpleRow, text: &[u8]) -> bool {
    let length = value_length(row.data_type, text);
    !text.is_empty()
        && row.min as usize <= length
        && length <= row.max as usize
        && is_plain(text)
        && has_form(row.data_type, text)
        && is_listed(row, text)
}

/// Whether a text at a spot triggers a dependency.
pub(crate) fn triggers(spot: &Spot, dependency: &Dependency, text: &[u8]) -> bool {
    dependency.at == spot.position
        && spot.slot.has_label(dependency.slot.as_slice())
        && dependency.codes.contains(text)
}

fn is_trigger(spot: &Spot, text: &[u8]) -> bool {
    for dependency in spot.rows.depends.as_slice() {
        if triggers(spot, dependency, text) {
            return true;
        }
    }
    false
}

/// The first of some codes that a row takes and that triggers no dependency; otherwise the first that the row takes.
pub(crate) fn code_among<'g>(
    spot: &Spot<'g>,
    row: &SimpleRow,
    codes: &'g [Text],
) -> Option<&'g [u8]> {
    let mut kept = None;
    for code in codes {
        let text = code.as_slice();
        if is_value(row, text) {
            if !is_trigger(spot, text) {
                return Some(text);
            }
            kept = kept.or(Some(text));
        }
    }
    kept
}

/// A text cut or filled to a row's length.
fn filled(alloc: Global, row: &SimpleRow, text: &[u8], filler: u8) -> Result<Vec<u8>, NoMemory> {
    let mut made = Vec::from_slice(alloc, &text[..text.len().min(row.max as usize)])?;
    for _ in text.len()..row.min as usize {
        made.push(filler)?;
    }
    Ok(made)
}

/// The first of some texts that a row takes; empty if it takes none.
fn first_value(alloc: Global, row: &SimpleRow, texts: &[&[u8]]) -> Result<Vec<u8>, NoMemory> {
    for text in texts {
        if is_value(row, text) {
            return Ok(Vec::from_slice(alloc, text)?);
        }
    }
    Ok(Vec::new(alloc))
}

/// A value of a row without codes; empty if none is known.
fn made(alloc: Global, row: &SimpleRow) -> Result<Vec<u8>, NoMemory> {
    match row.data_type {
        ElementType::Text => filled(alloc, row, b"SAMPLE", b'X'),
        ElementType::Identifier => filled(alloc, row, b"AA", b'A'),
        ElementType::Number(_) | ElementType::Decimal => filled(alloc, row, b"1", b'0'),
        ElementType::Date => first_value(
            alloc,
            row,
            &[b"20260301".as_slice(), b"260301".as_slice()],
        ),
        ElementType::Time => first_value(
            alloc,
            row,
            &[
                b"1015".as_slice(),
                b"101500".as_slice(),
                b"1015000".as_slice(),
                b"10150000".as_slice(),
            ],
        ),
    }
}

/// A value of a simple row at a spot; empty if none is known.
fn simple_text(alloc: Global, spot: &Spot, row: &SimpleRow) -> Result<Vec<u8>, NoMemory> {
    let Some(listed) = &row.codes else {
        return made(alloc, row);
    };
    copied(alloc, code_among(spot, row, listed.used.as_slice()))
}

fn copied(alloc: Global, text: Option<&[u8]>) -> Result<Vec<u8>, NoMemory> {
    Ok(Vec::from_slice(alloc, text.unwrap_or(b""))?)
}

/// The codes by which a slot picks at a position, if it does.
pub(crate) fn picked_codes(slot: &Slot, position: u32) -> Option<&[Text]> {
    for pick in slot.picks.as_slice() {
        if pick.position == position {
            return Some(pick.codes.as_slice());
        }
    }
    None
}

fn is_mandatory(component: &Component) -> bool {
    match component {
        Component::NotUsed(_) => false,
        Component::Simple(row) => row.requirement == Requirement::Mandatory,
    }
}

/// A value of a component; empty if none is known.
pub(crate) fn component_text(
    alloc: Global,
    spot: &Spot,
    component: &Component,
) -> Result<Vec<u8>, NoMemory> {
    match component {
        Component::NotUsed(_) => Ok(Vec::new(alloc)),
        Component::Simple(row) => simple_text(alloc, spot, row),
    }
}

/// Adds the component with an index, from 0, after the separators that come before it.
pub(crate) fn append_component(
    text: &mut Vec<u8>,
    separators: &mut usize,
    index: usize,
    component: &[u8],
) -> Result<(), NoMemory> {
    if component.is_empty() {
        return Ok(());
    }
    for _ in *separators..index {
        text.push(b'>')?;
    }
    *separators = index;
    text.extend_from_slice(component)?;
    Ok(())
}

/// A composite value with each component that it may have, or only those that it must have; empty if none is known.
fn composite_text(
    alloc: Global,
    spot: &Spot,
    row: &CompositeRow,
    full: bool,
) -> Result<Vec<u8>, NoMemory> {
    let components = row.components.as_slice();
    let needs_any = !components.iter().any(is_mandatory);
    let mut text = Vec::new(alloc);
    let mut separators = 0;
    for k in 0..components.len() {
        let part = component_text(alloc, spot, &components[k])?;
        if is_mandatory(&components[k]) && part.is_empty() {
            return Ok(Vec::new(alloc));
        }
        if full || is_mandatory(&components[k]) || (needs_any && text.is_empty()) {
            append_component(&mut text, &mut separators, k, part.as_slice())?;
        }
    }
    Ok(text)
}

/// A value of an element at a spot; empty if none is known.
pub(crate) fn element_text(
    alloc: Global,
    spot: &Spot,
    element: &Element,
    full: bool,
) -> Result<Vec<u8>, NoMemory> {
    match element {
        Element::NotUsed(_) => Ok(Vec::new(alloc)),
        Element::Composite(row) => composite_text(alloc, spot, row, full),
        Element::Simple(row, _) => match picked_codes(spot.slot, spot.position) {
            None => simple_text(alloc, spot, row),
            Some(codes) => copied(alloc, code_among(spot, row, codes)),
        },
    }
}
