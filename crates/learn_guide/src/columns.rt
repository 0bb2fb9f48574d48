//! The values that the elements of a segment have in all its uses.
use hub_kinds::{MOST_ELEMENTS, NoMemory};
use std::alloc::Global;
use x12_bytes::Delims;
use x12_segs::{SegView, components, occurrences};

/// An occurrence of an element, with the byte that divides its components.
#[derive(Clone, Copy)]
pub(crate) struct Occurrence<'a> {
    pub text: &'a [u8],
    pub delims: Delims,
}

/// An element in all uses of its segment.
#[derive(Drop)]
pub(crate) struct Column<'a> {
    /// In how many uses it has a value.
    pub present: usize,
    /// How many occurrences it has at most.
    pub most: usize,
    /// Whether some value has more than one component.
    pub is_composite: bool,
    /// The occurrences that have a value.
    pub values: Vec<Occurrence<'a>>,
}

/// Whether a text has a byte that divides nothing.
pub(crate) fn is_filled(text: &[u8], delims: Delims) -> bool {
    text.iter().any(|byte| *byte != delims.component && Some(*byte) != delims.repetition)
}

/// Adds the occurrences of an element of one use.
fn add_values<'a>(column: &mut Column<'a>, text: &'a [u8], delims: Delims) -> Result<(), NoMemory> {
    column.present = column.present.saturating_add(1);
    let mut count: usize = 0;
    for part in occurrences(text, delims) {
        count = count.saturating_add(1);
        if is_filled(part, delims) {
            column.is_composite = column.is_composite || part.contains(&delims.component);
            column.values.push(Occurrence { text: part, delims })?;
        }
    }
    column.most = column.most.max(count);
    Ok(())
}

/// Adds empty columns until there are that many.
fn widen(alloc: Global, columns: &mut Vec<Column>, width: usize) -> Result<(), NoMemory> {
    for _ in columns.len()..width {
        columns.push(Column {
            present: 0,
            most: 0,
            is_composite: false,
            values: Vec::new(alloc),
        })?;
    }
    Ok(())
}

/// The elements of the uses of a segment, up to the last that has a value; those after the 41st are left out.
pub(crate) fn columns_of<'a>(
    alloc: Global,
    uses: &[SegView<'a>],
) -> Result<Vec<Column<'a>>, NoMemory> {
    let mut columns = Vec::new(alloc);
    for segment in uses {
        let delims = segment.delims();
        let mut k: usize = 0;
        for text in segment.elements() {
            if k <= MOST_ELEMENTS && is_filled(text, delims) {
                widen(alloc, &mut columns, k + 1)?;
                if let Some(column) = columns.get_mut(k) {
                    add_values(column, text, delims)?;
                }
            }
            k = k.saturating_add(1);
        }
    }
    Ok(columns)
}

/// The values of each component of a composite element.
pub(crate) fn components_of<'a>(
    alloc: Global,
    column: &Column<'a>,
) -> Result<Vec<Vec<&'a [u8]>>, NoMemory> {
    let mut parts: Vec<Vec<&'a [u8]>> = Vec::new(alloc);
    for value in column.values.as_slice() {
        let mut k: usize = 0;
        for text in components(value.text, value.delims) {
            for _ in parts.len()..k.saturating_add(1) {
                parts.push(Vec::new(alloc))?;
            }
            if let Some(part) = parts.get_mut(k)
                && !text.is_empty()
            {
                part.push(text)?;
            }
            k = k.saturating_add(1);
        }
    }
    Ok(parts)
}
