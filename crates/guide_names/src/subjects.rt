//! What a names file names, each as a text that says which.
ghost use Rattle.std.specs.Prelude.{◌≡◌, ◌++◌, IfOk, OnOk, option_map};
ghost use Rattle.std.specs.List.{flat_map};
ghost use Rattle.toml.specs.View.{table_view, view};
ghost use Rattle.guide_names.specs.Names.{inner, members_or_none, tables_of, texts_of, words_of};
ghost use Rattle.guide_names.specs.Subjects as subjects;

use crate::lookup::table_in;
use hub_kinds::{Items, NoMemory, Text};
use std::alloc::Global;
use toml::{Table, Value};

/// Two texts as one.
fn joined(alloc: Global, first: &[u8], second: &[u8]) -> Result<Vec<u8>, NoMemory>
    ensures { IfOk result (λ text. text.items ≡ first.now ++ second.now) }
{
    let mut text = Vec::from_slice(alloc, first)?;
    text.extend_from_slice(second)?;
    Ok(text)
}

fn push_code(
    alloc: Global,
    found: &mut Vec<Text>,
    reference: &[u8],
    key: &[u8],
) -> Result<(), NoMemory>
    ensures { OnOk result (found.new.items ≡ found.old.items ++ subjects.of_key reference.now key.now) }
{
    if key == b"name".as_slice() {
        return Ok(());
    }
    found.push(code_subject(alloc, reference, key)?)?;
    Ok(())
}

/// Adds the codes of an element that a table has words for.
fn push_codes(
    alloc: Global,
    found: &mut Vec<Text>,
    reference: &[u8],
    table: &Table,
) -> Result<(), NoMemory>
    ensures { OnOk result (found.new.items ≡ found.old.items
        ++ flat_map (subjects.of_code reference.now) (texts_of (table_view table.now))) }
{
    for (key, _) in table.iter() {
        push_code(alloc, found, reference, key.as_bytes())?;
    }
    Ok(())
}

/// Adds the codes of an element, if it has a table.
fn push_words(
    alloc: Global,
    found: &mut Vec<Text>,
    reference: &[u8],
    value: &Value,
) -> Result<(), NoMemory>
    ensures { OnOk result (found.new.items ≡ found.old.items ++ flat_map (subjects.of_code reference.now) (inner (view value.now))) }
{
    match value.as_table() {
        None => Ok(()),
        Some(table) => push_codes(alloc, found, reference, table),
    }
}

/// Adds an element and its codes.
fn push_element(
    alloc: Global,
    found: &mut Vec<Text>,
    reference: &[u8],
    value: &Value,
) -> Result<(), NoMemory>
    ensures { OnOk result (found.new.items ≡ found.old.items ++ subjects.of_element (reference.now, inner (view value.now))) }
{
    found.push(element_subject(alloc, reference)?)?;
    push_words(alloc, found, reference, value)
}

fn push_elements(alloc: Global, found: &mut Vec<Text>, table: &Table) -> Result<(), NoMemory>
    ensures { OnOk result (found.new.items ≡ found.old.items ++ flat_map subjects.of_element (tables_of (table_view table.now))) }
{
    for (key, value) in table.iter() {
        push_element(alloc, found, key.as_bytes(), value)?;
    }
    Ok(())
}

fn push_segments(alloc: Global, found: &mut Vec<Text>, table: &Table) -> Result<(), NoMemory>
    ensures { OnOk result (found.new.items ≡ found.old.items ++ flat_map subjects.of_segment (texts_of (table_view table.now))) }
{
    for (key, _) in table.iter() {
        found.push(segment_subject(alloc, key.as_bytes())?)?;
    }
    Ok(())
}

fn push_labels(alloc: Global, found: &mut Vec<Text>, table: &Table) -> Result<(), NoMemory>
    ensures { OnOk result (found.new.items ≡ found.old.items ++ flat_map subjects.of_label (tables_of (table_view table.now))) }
{
    for (key, _) in table.iter() {
        found.push(label_subject(alloc, key.as_bytes())?)?;
    }
    Ok(())
}

/// Adds the segments, if there is a table of them.
fn push_all_segments(
    alloc: Global,
    found: &mut Vec<Text>,
    table: Option<&Table>,
) -> Result<(), NoMemory>
    ensures { OnOk result (found.new.items ≡ found.old.items
        ++ flat_map subjects.of_segment (texts_of (members_or_none (option_map (λ t. table_view t.now) table.entry)))) }
{
    match table {
        None => Ok(()),
        Some(table) => push_segments(alloc, found, table),
    }
}

/// Adds the elements, if there is a table of them.
fn push_all_elements(
    alloc: Global,
    found: &mut Vec<Text>,
    table: Option<&Table>,
) -> Result<(), NoMemory>
    ensures { OnOk result (found.new.items ≡ found.old.items
        ++ flat_map subjects.of_element (tables_of (members_or_none (option_map (λ t. table_view t.now) table.entry)))) }
{
    match table {
        None => Ok(()),
        Some(table) => push_elements(alloc, found, table),
    }
}

/// Adds the labels, if there is a table of them.
fn push_all_labels(
    alloc: Global,
    found: &mut Vec<Text>,
    table: Option<&Table>,
) -> Result<(), NoMemory>
    ensures { OnOk result (found.new.items ≡ found.old.items
        ++ flat_map subjects.of_label (tables_of (members_or_none (option_map (λ t. table_view t.now) table.entry)))) }
{
    match table {
        None => Ok(()),
        Some(table) => push_labels(alloc, found, table),
    }
}

/// All that a file's `top` table has words for.
pub(crate) fn push_subjects(
    alloc: Global,
    found: &mut Vec<Text>,
    top: &Table,
) -> Result<(), NoMemory>
    ensures { OnOk result (found.new.items ≡ found.old.items ++ subjects.subjects (words_of (table_view top.now))) }
{
    push_all_segments(alloc, found, table_in(Some(top), b"segment"))?;
    push_all_elements(alloc, found, table_in(Some(top), b"element"))?;
    push_all_labels(alloc, found, table_in(Some(top), b"label"))
}

/// What the name of the segment with an `id` is of.
pub fn segment_subject(alloc: Global, id: &[u8]) -> Result<Text, NoMemory>
    ensures { IfOk result (λ text. text ≡ subjects.segment_subject id.now) }
{
    Ok(Items::from_vec(joined(alloc, b"segment ", id)?))
}

/// What the name of the element with a `reference` number is of.
pub fn element_subject(alloc: Global, reference: &[u8]) -> Result<Text, NoMemory>
    ensures { IfOk result (λ text. text ≡ subjects.element_subject reference.now) }
{
    Ok(Items::from_vec(joined(alloc, b"element ", reference)?))
}

/// What the name of a `code` of the element with a `reference` number is of.
pub fn code_subject(alloc: Global, reference: &[u8], code: &[u8]) -> Result<Text, NoMemory>
    ensures { IfOk result (λ text. text ≡ subjects.code_subject reference.now code.now) }
{
    let element = joined(alloc, b" of element ", reference)?;
    let which = joined(alloc, code, element.as_slice())?;
    Ok(Items::from_vec(joined(alloc, b"code ", which.as_slice())?))
}

/// What the note on the segment with a `label` is of.
pub fn label_subject(alloc: Global, label: &[u8]) -> Result<Text, NoMemory>
    ensures { IfOk result (λ text. text ≡ subjects.label_subject label.now) }
{
    Ok(Items::from_vec(joined(alloc, b"label ", label)?))
}
