//! The words of a names file beside ids, reference numbers and codes.
ghost use Rattle.std.specs.Prelude.{◌≡◌, ◌++◌, OnOk, option_map};
ghost use Rattle.std.specs.List.{flat_map};
ghost use Rattle.guide_names.specs.Names.{code_name, element_name, label_note, segment_name, set_name, set_note};
ghost use Rattle.guide_page.specs.Named as named;

use crate::tags::{append_code, append_fixed, append_tagged};
use guide_names::Names;
use guide_tree::Slot;
use hub_kinds::{NoMemory, Text};
use std::alloc::Global;

/// Appends a name after an id or a number, if there is one.
fn append_name(alloc: Global, out: &mut Vec<u8>, name: Option<&[u8]>) -> Result<(), NoMemory>
    ensures { OnOk result (out.new.items ≡ out.old.items ++ named.name_part (option_map (λ t. t.now) name.entry)) }
{
    match name {
        None => Ok(()),
        Some(name) => append_tagged(alloc, out, b" ", name, b""),
    }
}

/// Appends the name of a code, if it has one.
fn append_code_name(alloc: Global, out: &mut Vec<u8>, name: Option<&[u8]>) -> Result<(), NoMemory>
    ensures { OnOk result (out.new.items ≡ out.old.items ++ named.code_name_part (option_map (λ t. t.now) name.entry)) }
{
    match name {
        None => Ok(()),
        Some(name) => append_tagged(alloc, out, b"(", name, b") "),
    }
}

/// Appends a paragraph, if there is a text for it.
fn append_paragraph(alloc: Global, out: &mut Vec<u8>, text: Option<&[u8]>) -> Result<(), NoMemory>
    ensures { OnOk result (out.new.items ≡ out.old.items ++ named.paragraph_part (option_map (λ t. t.now) text.entry)) }
{
    match text {
        None => Ok(()),
        Some(text) => append_tagged(alloc, out, b"<p>", text, b"</p>\n"),
    }
}

/// Appends the name of a segment.
pub(crate) fn append_slot_name(
    alloc: Global,
    out: &mut Vec<u8>,
    names: &Names,
    slot: &Slot,
) -> Result<(), NoMemory>
    ensures { OnOk result (out.new.items ≡ out.old.items ++ named.name_part (segment_name names.now slot.now.id)) }
{
    append_name(alloc, out, names.segment(slot.id.as_slice()))
}

fn append_element_name(
    alloc: Global,
    out: &mut Vec<u8>,
    names: &Names,
    reference: &[u8],
) -> Result<(), NoMemory>
    ensures { OnOk result (out.new.items ≡ out.old.items ++ named.name_part (element_name names.now reference.now)) }
{
    append_name(alloc, out, names.element(reference))
}

/// Appends a cell with the number of an element, and its name.
pub(crate) fn append_reference_cell(
    alloc: Global,
    out: &mut Vec<u8>,
    names: &Names,
    reference: &[u8],
) -> Result<(), NoMemory>
    ensures { OnOk result (out.new.items ≡ out.old.items ++ named.reference_cell names.now reference.now) }
{
    append_tagged(alloc, out, b"<td>", reference, b"")?;
    append_element_name(alloc, out, names, reference)?;
    append_fixed(out, b"</td>")
}

fn append_word_of(
    alloc: Global,
    out: &mut Vec<u8>,
    names: &Names,
    reference: &[u8],
    code: &[u8],
) -> Result<(), NoMemory>
    ensures { OnOk result (out.new.items ≡ out.old.items
        ++ named.code_name_part (code_name names.now reference.now code.now)) }
{
    append_code_name(alloc, out, names.code(reference, code))
}

fn append_named_code(
    alloc: Global,
    out: &mut Vec<u8>,
    names: &Names,
    reference: &[u8],
    code: &[u8],
) -> Result<(), NoMemory>
    ensures { OnOk result (out.new.items ≡ out.old.items ++ named.named_code names.now reference.now code.now) }
{
    append_code(alloc, out, code)?;
    append_word_of(alloc, out, names, reference, code)
}

/// Appends codes of an element, each with its name.
pub(crate) fn append_named_codes(
    alloc: Global,
    out: &mut Vec<u8>,
    names: &Names,
    reference: &[u8],
    codes: &[Text],
) -> Result<(), NoMemory>
    ensures { OnOk result (out.new.items ≡ out.old.items ++ flat_map (named.named_code names.now reference.now) codes.now) }
{
    for i in 0..codes.len() {
        append_named_code(alloc, out, names, reference, codes[i].as_slice())?;
    }
    Ok(())
}

/// Appends the note on the segment with a label, if there is one.
pub(crate) fn append_label_note(
    alloc: Global,
    out: &mut Vec<u8>,
    names: &Names,
    label: &[u8],
) -> Result<(), NoMemory>
    ensures { OnOk result (out.new.items ≡ out.old.items ++ named.paragraph_part (label_note names.now label.now)) }
{
    append_paragraph(alloc, out, names.label_note(label))
}

fn append_set_name(alloc: Global, out: &mut Vec<u8>, names: &Names) -> Result<(), NoMemory>
    ensures { OnOk result (out.new.items ≡ out.old.items ++ named.paragraph_part (set_name names.now)) }
{
    append_paragraph(alloc, out, names.set_name())
}

fn append_set_note(alloc: Global, out: &mut Vec<u8>, names: &Names) -> Result<(), NoMemory>
    ensures { OnOk result (out.new.items ≡ out.old.items ++ named.paragraph_part (set_note names.now)) }
{
    append_paragraph(alloc, out, names.set_note())
}

/// Appends the name of the set and the note on it, if there are any.
pub(crate) fn append_set_words(
    alloc: Global,
    out: &mut Vec<u8>,
    names: &Names,
) -> Result<(), NoMemory>
    ensures { OnOk result (out.new.items ≡ out.old.items ++ named.set_words names.now) }
{
    append_set_name(alloc, out, names)?;
    append_set_note(alloc, out, names)
}
