ghost use Rattle.std.specs.Prelude.{◌≡◌, ◌++◌, OnOk};
ghost use Rattle.std.specs.List.{flat_map};
ghost use Rattle.guide_page.specs.Elements as rows;
ghost use Rattle.guide_page.specs.Named.{named_code, reference_cell};

use crate::named::{append_named_codes, append_reference_cell};
use crate::tags::{append_cell, append_fixed, append_row_head};
use crate::words::{
    component_name, element_name, number_text, range_words, requirement_words, type_and_width,
};
use guide_names::Names;
use guide_tree::{CodeList, Codes, Component, CompositeRow, Element, Requirement, SimpleRow};
use hub_kinds::{NoMemory, Text};
use std::alloc::Global;

fn append_unused(
    alloc: Global,
    out: &mut Vec<u8>,
    names: &Names,
    reference: &[u8],
    codes: &[Text],
) -> Result<(), NoMemory>
    ensures { OnOk result (out.new.items ≡ out.old.items ++ rows.unused_texts names.now reference.now codes.now) }
{
    append_fixed(out, b"<br>not used: ")?;
    append_named_codes(alloc, out, names, reference, codes)
}

fn append_unused_codes(
    alloc: Global,
    out: &mut Vec<u8>,
    names: &Names,
    reference: &[u8],
    codes: &Option<Codes>,
) -> Result<(), NoMemory>
    ensures { OnOk result (out.new.items ≡ out.old.items ++ rows.unused_part names.now reference.now codes.now) }
{
    match codes {
        None => Ok(()),
        Some(codes) => append_unused(alloc, out, names, reference, codes.as_slice()),
    }
}

fn append_used_codes(
    alloc: Global,
    out: &mut Vec<u8>,
    names: &Names,
    reference: &[u8],
    list: &CodeList,
) -> Result<(), NoMemory>
    ensures { OnOk result (out.new.items ≡ out.old.items ++ flat_map (named_code names.now reference.now) list.now.used) }
{
    append_named_codes(alloc, out, names, reference, list.used.as_slice())
}

fn append_list(
    alloc: Global,
    out: &mut Vec<u8>,
    names: &Names,
    reference: &[u8],
    list: &CodeList,
) -> Result<(), NoMemory>
    ensures { OnOk result (out.new.items ≡ out.old.items ++ rows.values_of names.now reference.now list.now) }
{
    append_used_codes(alloc, out, names, reference, list)?;
    append_unused_codes(alloc, out, names, reference, &list.unused)
}

fn append_values(
    alloc: Global,
    out: &mut Vec<u8>,
    names: &Names,
    reference: &[u8],
    codes: &Option<CodeList>,
) -> Result<(), NoMemory>
    ensures { OnOk result (out.new.items ≡ out.old.items ++ rows.values_part names.now reference.now codes.now) }
{
    match codes {
        None => Ok(()),
        Some(list) => append_list(alloc, out, names, reference, list),
    }
}

fn append_unused_row(
    alloc: Global,
    out: &mut Vec<u8>,
    names: &Names,
    name: &[u8],
    reference: &[u8],
) -> Result<(), NoMemory>
    ensures { OnOk result (out.new.items ≡ out.old.items ++ rows.unused_row names.now name.now reference.now) }
{
    append_row_head(alloc, out, name)?;
    append_reference_cell(alloc, out, names, reference)?;
    append_fixed(
        out,
        b"<td>not used</td><td></td><td></td><td></td><td></td></tr>\n",
    )
}

fn append_use_cell(
    alloc: Global,
    out: &mut Vec<u8>,
    requirement: Requirement,
) -> Result<(), NoMemory>
    ensures { OnOk result (out.new.items ≡ out.old.items ++ rows.use_cell requirement) }
{
    append_cell(alloc, out, requirement_words(requirement))
}

fn append_type_cell(alloc: Global, out: &mut Vec<u8>, row: &SimpleRow) -> Result<(), NoMemory>
    ensures { OnOk result (out.new.items ≡ out.old.items ++ rows.type_cell row.now) }
{
    let words = type_and_width(alloc, row)?;
    append_cell(alloc, out, words.as_slice())
}

/// Appends a cell with a least and a greatest number.
pub(crate) fn append_range_cell(
    alloc: Global,
    out: &mut Vec<u8>,
    least: u32,
    most: u32,
) -> Result<(), NoMemory>
    ensures { OnOk result (out.new.items ≡ out.old.items ++ rows.range_cell least most) }
{
    let words = range_words(alloc, least, most)?;
    append_cell(alloc, out, words.as_slice())
}

fn append_number_cell(alloc: Global, out: &mut Vec<u8>, number: u32) -> Result<(), NoMemory>
    ensures { OnOk result (out.new.items ≡ out.old.items ++ rows.number_cell number) }
{
    let text = number_text(alloc, number)?;
    append_cell(alloc, out, text.as_slice())
}

fn append_value_cell(
    alloc: Global,
    out: &mut Vec<u8>,
    names: &Names,
    reference: &[u8],
    codes: &Option<CodeList>,
) -> Result<(), NoMemory>
    ensures { OnOk result (out.new.items ≡ out.old.items ++ rows.value_cell names.now reference.now codes.now) }
{
    append_fixed(out, b"<td>")?;
    append_values(alloc, out, names, reference, codes)?;
    append_fixed(out, b"</td></tr>\n")
}

fn append_row_reference(
    alloc: Global,
    out: &mut Vec<u8>,
    names: &Names,
    row: &SimpleRow,
) -> Result<(), NoMemory>
    ensures { OnOk result (out.new.items ≡ out.old.items ++ reference_cell names.now row.now.reference) }
{
    append_reference_cell(alloc, out, names, row.reference.as_slice())
}

fn append_composite_reference(
    alloc: Global,
    out: &mut Vec<u8>,
    names: &Names,
    row: &CompositeRow,
) -> Result<(), NoMemory>
    ensures { OnOk result (out.new.items ≡ out.old.items ++ reference_cell names.now row.now.reference) }
{
    append_reference_cell(alloc, out, names, row.reference.as_slice())
}

fn append_row_values(
    alloc: Global,
    out: &mut Vec<u8>,
    names: &Names,
    row: &SimpleRow,
) -> Result<(), NoMemory>
    ensures { OnOk result (out.new.items ≡ out.old.items ++ rows.value_cell names.now row.now.reference row.now.codes) }
{
    append_value_cell(alloc, out, names, row.reference.as_slice(), &row.codes)
}

fn append_simple_row(
    alloc: Global,
    out: &mut Vec<u8>,
    names: &Names,
    name: &[u8],
    row: &SimpleRow,
    times: u32,
) -> Result<(), NoMemory>
    ensures { OnOk result (out.new.items ≡ out.old.items ++ rows.simple_row names.now name.now row.now times) }
{
    append_row_head(alloc, out, name)?;
    append_row_reference(alloc, out, names, row)?;
    append_use_cell(alloc, out, row.requirement)?;
    append_type_cell(alloc, out, row)?;
    append_range_cell(alloc, out, row.min, row.max)?;
    append_number_cell(alloc, out, times)?;
    append_row_values(alloc, out, names, row)
}

fn append_composite_row(
    alloc: Global,
    out: &mut Vec<u8>,
    names: &Names,
    name: &[u8],
    row: &CompositeRow,
) -> Result<(), NoMemory>
    ensures { OnOk result (out.new.items ≡ out.old.items ++ rows.composite_row names.now name.now row.now) }
{
    append_row_head(alloc, out, name)?;
    append_composite_reference(alloc, out, names, row)?;
    append_use_cell(alloc, out, row.requirement)?;
    append_fixed(out, b"<td>composite</td><td></td>")?;
    append_number_cell(alloc, out, row.repeat)?;
    append_fixed(out, b"<td></td></tr>\n")
}

fn append_component(
    alloc: Global,
    out: &mut Vec<u8>,
    names: &Names,
    above: &[u8],
    position: u64,
    component: &Component,
) -> Result<(), NoMemory>
    ensures { OnOk result (out.new.items ≡ out.old.items
        ++ rows.component_row names.now (rows.component_name above.now position) component.now) }
{
    let name = component_name(alloc, above, position)?;
    match component {
        Component::NotUsed(reference) => {
            append_unused_row(alloc, out, names, name.as_slice(), reference.as_slice())
        }
        Component::Simple(row) => append_simple_row(alloc, out, names, name.as_slice(), row, 1),
    }
}

fn append_components(
    alloc: Global,
    out: &mut Vec<u8>,
    names: &Names,
    name: &[u8],
    components: &[Component],
) -> Result<(), NoMemory>
    ensures { OnOk result (out.new.items ≡ out.old.items ++ rows.component_rows names.now name.now 1 components.now) }
{
    for i in 0..components.len() {
        append_component(alloc, out, names, name, i as u64 + 1, &components[i])?;
    }
    Ok(())
}

fn append_component_rows(
    alloc: Global,
    out: &mut Vec<u8>,
    names: &Names,
    name: &[u8],
    row: &CompositeRow,
) -> Result<(), NoMemory>
    ensures { OnOk result (out.new.items ≡ out.old.items ++ rows.component_rows names.now name.now 1 row.now.components) }
{
    append_components(alloc, out, names, name, row.components.as_slice())
}

fn append_composite(
    alloc: Global,
    out: &mut Vec<u8>,
    names: &Names,
    name: &[u8],
    row: &CompositeRow,
) -> Result<(), NoMemory>
    ensures { OnOk result (out.new.items ≡ out.old.items
        ++ (rows.composite_row names.now name.now row.now ++ rows.component_rows names.now name.now 1 row.now.components)) }
{
    append_composite_row(alloc, out, names, name, row)?;
    append_component_rows(alloc, out, names, name, row)
}

fn append_element(
    alloc: Global,
    out: &mut Vec<u8>,
    names: &Names,
    id: &[u8],
    position: u64,
    element: &Element,
) -> Result<(), NoMemory>
    ensures { OnOk result (out.new.items ≡ out.old.items
        ++ rows.element_rows_of names.now (rows.element_name id.now position) element.now) }
{
    let name = element_name(alloc, id, position)?;
    match element {
        Element::NotUsed(reference) => {
            append_unused_row(alloc, out, names, name.as_slice(), reference.as_slice())
        }
        Element::Simple(row, repeat) => {
            append_simple_row(alloc, out, names, name.as_slice(), row, *repeat)
        }
        Element::Composite(row) => append_composite(alloc, out, names, name.as_slice(), row),
    }
}

/// Appends a row for each element of a segment with this id, and for each component.
pub(crate) fn append_elements(
    alloc: Global,
    out: &mut Vec<u8>,
    names: &Names,
    id: &[u8],
    elements: &[Element],
) -> Result<(), NoMemory>
    ensures { OnOk result (out.new.items ≡ out.old.items ++ rows.element_rows names.now id.now 1 elements.now) }
{
    for i in 0..elements.len() {
        append_element(alloc, out, names, id, i as u64 + 1, &elements[i])?;
    }
    Ok(())
}
