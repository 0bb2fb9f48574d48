//! The text of an element of a guide file, by the values that were seen.
use crate::cause::{append, append_number};
use crate::columns::{Column, components_of};
use crate::heads::{is_hl, is_place, is_qualified};
use crate::known::{Known, KnownRow, Spot};
use crate::types::{Form, guessed_form, known_form};
use guide_tree::{ElementType, SimpleRow};
use hub_kinds::NoMemory;
use std::alloc::Global;

/// How many codes are listed at most.
const MOST_CODES: usize = 50;
/// The longest values that are taken for codes, in bytes.
const LONGEST_CODE: usize = 3;

/// Values of an element or a component.
#[derive(Clone, Copy)]
struct Values<'v, 'a> {
    /// Each value.
    all: &'v [&'a [u8]],
    /// Each different value once, in order.
    distinct: &'v [&'a [u8]],
    /// Whether it was there wherever it could be.
    is_mandatory: bool,
    /// How often it occurs at most in a segment.
    most: usize,
}

/// Whether the bytes of a text may be those of a code in a guide file.
fn is_code(text: &[u8]) -> bool {
    !text.is_empty()
        && text.iter().all(|byte| matches!(*byte, b'!'..=b'~')
            && !matches!(*byte, b'=' | b'!' | b';'))
}

fn are_codes(values: &[&[u8]]) -> bool {
    for value in values {
        if !is_code(value) {
            return false;
        }
    }
    true
}

fn is_wide(values: &[&[u8]]) -> bool {
    for value in values {
        if value.iter().any(|byte| *byte >= 0x80) {
            return true;
        }
    }
    false
}

/// Each different text once, in order.
fn distinct_of<'a>(alloc: Global, values: &[&'a [u8]]) -> Result<Vec<&'a [u8]>, NoMemory> {
    let mut sorted = Vec::from_slice(alloc, values)?;
    sorted.sort()?;
    let mut distinct: Vec<&'a [u8]> = Vec::new(alloc);
    for value in sorted {
        if distinct.last() != Some(&value) {
            distinct.push(value)?;
        }
    }
    Ok(distinct)
}

/// Whether the values are listed as codes.
fn lists_codes(spot: &Spot, form: &Form, known: Option<&SimpleRow>, values: &Values) -> bool {
    if values.distinct.len() > MOST_CODES || !are_codes(values.distinct) {
        return false;
    }
    if spot.element == 1 && is_qualified(spot.id) {
        return true;
    }
    match known {
        Some(row) => row.codes.is_some(),
        None => {
            form.data_type == ElementType::Text
                && form.max <= LONGEST_CODE
                && values.distinct.len() < values.all.len()
                && !is_place(spot.id)
        }
    }
}

fn append_type(out: &mut Vec<u8>, data_type: ElementType) -> Result<(), NoMemory> {
    match data_type {
        ElementType::Text => append(out, b"AN"),
        ElementType::Identifier => append(out, b"ID"),
        ElementType::Number(places) => {
            append(out, b"N")?;
            append_number(out, places as usize)
        }
        ElementType::Decimal => append(out, b"R"),
        ElementType::Date => append(out, b"DT"),
        ElementType::Time => append(out, b"TM"),
    }
}

/// Writes a reference number, or that there is none.
fn append_reference(out: &mut Vec<u8>, known: Option<KnownRow>) -> Result<(), NoMemory> {
    let reference: &[u8] = match known {
        None => b"",
        Some(KnownRow::NotUsed(text)) => text,
        Some(KnownRow::Composite(text)) => text,
        Some(KnownRow::Simple(row)) => row.reference.as_slice(),
    };
    if reference.is_empty() {
        append(out, b"-")
    } else {
        append(out, reference)
    }
}

fn append_use(out: &mut Vec<u8>, is_mandatory: bool) -> Result<(), NoMemory> {
    append(out, if is_mandatory { b" M " } else { b" O " })
}

fn append_repeat(out: &mut Vec<u8>, most: usize) -> Result<(), NoMemory> {
    if most > 1 {
        append(out, b" x")?;
        append_number(out, most)?;
    }
    Ok(())
}

fn append_codes(out: &mut Vec<u8>, codes: &[&[u8]]) -> Result<(), NoMemory> {
    append(out, b" =")?;
    for code in codes {
        append(out, b" ")?;
        append(out, code)?;
    }
    Ok(())
}

/// Writes the row of an element or a component that has values; `picked` says that its codes stay out. Gives whether its form is guessed.
fn append_values(
    out: &mut Vec<u8>,
    spot: &Spot,
    known: Option<KnownRow>,
    values: &Values,
    picked: bool,
) -> Result<bool, NoMemory> {
    let row = match known {
        Some(KnownRow::Simple(row)) => Some(row),
        _ => None,
    };
    let told = match row {
        None => None,
        Some(row) => known_form(row, values.all),
    };
    let mut form = told.unwrap_or(guessed_form(values.all, values.distinct.len()));
    let lists = !picked && lists_codes(spot, &form, row, values);
    if lists && form.data_type == ElementType::Text {
        form.data_type = ElementType::Identifier;
    }
    append_reference(out, known)?;
    append_use(out, values.is_mandatory)?;
    append_type(out, form.data_type)?;
    append(out, b" ")?;
    append_number(out, form.min)?;
    append(out, b" ")?;
    append_number(out, form.max)?;
    append_repeat(out, values.most)?;
    if is_wide(values.distinct) {
        append(out, b" wide")?;
    }
    if lists {
        append_codes(out, values.distinct)?;
    }
    Ok(told.is_none())
}

/// Writes the row of a simple element.
fn append_simple(
    alloc: Global,
    out: &mut Vec<u8>,
    spot: &Spot,
    known: Option<KnownRow>,
    column: &Column,
    uses: usize,
    picked: bool,
) -> Result<bool, NoMemory> {
    let mut all = Vec::new(alloc);
    for value in column.values.as_slice() {
        all.push(value.text)?;
    }
    let distinct = distinct_of(alloc, all.as_slice())?;
    let values = Values {
        all: all.as_slice(),
        distinct: distinct.as_slice(),
        is_mandatory: column.present == uses,
        most: column.most,
    };
    append_values(out, spot, known, &values, picked)
}

/// Writes the row of a component.
fn append_component(
    alloc: Global,
    out: &mut Vec<u8>,
    spot: &Spot,
    known: &Known,
    texts: &[&[u8]],
    uses: usize,
) -> Result<bool, NoMemory> {
    append(out, b" ; ")?;
    let row = known.row(alloc, spot)?;
    if texts.is_empty() {
        append_reference(out, row)?;
        append(out, b" N")?;
        return Ok(false);
    }
    let distinct = distinct_of(alloc, texts)?;
    let values = Values {
        all: texts,
        distinct: distinct.as_slice(),
        is_mandatory: texts.len() == uses,
        most: 1,
    };
    append_values(out, spot, row, &values, false)
}

/// Writes the row of a composite element.
fn append_composite(
    alloc: Global,
    out: &mut Vec<u8>,
    spot: &Spot,
    known: &Known,
    column: &Column,
    uses: usize,
) -> Result<bool, NoMemory> {
    append_reference(out, known.row(alloc, spot)?)?;
    append_use(out, column.present == uses)?;
    append(out, b"C")?;
    append_repeat(out, column.most)?;
    let parts = components_of(alloc, column)?;
    let mut is_guessed = false;
    for k in 0..parts.len() {
        let inner = Spot {
            component: k + 1,
            ..*spot
        };
        let guessed = append_component(
            alloc,
            out,
            &inner,
            known,
            parts[k].as_slice(),
            column.values.len(),
        )?;
        is_guessed = is_guessed || guessed;
    }
    Ok(is_guessed)
}

/// Writes the row of an element that has no value: a hierarchy's fourth one may be 0 or 1.
fn append_unused(
    out: &mut Vec<u8>,
    spot: &Spot,
    known: Option<KnownRow>,
) -> Result<bool, NoMemory> {
    if is_hl(spot.id) && spot.element == 4 {
        append(out, b"736 O ID 1 1 = 0 1")?;
        return Ok(false);
    }
    append_reference(out, known)?;
    append(out, b" N")?;
    Ok(false)
}

/// Writes the text of an element, for a segment with that many uses. Gives whether its type or its lengths are guessed.
pub(crate) fn append_row(
    alloc: Global,
    out: &mut Vec<u8>,
    spot: &Spot,
    known: &Known,
    column: Option<&Column>,
    uses: usize,
) -> Result<bool, NoMemory> {
    let row = known.row(alloc, spot)?;
    let Some(column) = column else {
        return append_unused(out, spot, row);
    };
    if column.present == 0 {
        append_unused(out, spot, row)
    } else if column.is_composite {
        append_composite(alloc, out, spot, known, column, uses)
    } else {
        let picked = is_hl(spot.id) && spot.element == 3;
        append_simple(alloc, out, spot, row, column, uses, picked)
    }
}
