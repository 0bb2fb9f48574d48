ghost use Rattle.std.specs.Prelude.{◌≡◌, ◌++◌, OnOk, decimal};
ghost use Rattle.std.specs.List.{flat_map};
ghost use Rattle.night_search.specs.Lines.{read};
ghost use Rattle.night_page.specs.Tags as tags;

use html_text::append_html;
use hub_kinds::NoMemory;
use itoa::Buffer;
use std::alloc::Global;

/// Appends markup, or another text that is fixed.
pub(crate) fn append_fixed(out: &mut Vec<u8>, text: &[u8]) -> Result<(), NoMemory>
    ensures { OnOk result (out.new.items ≡ out.old.items ++ text.now) }
{
    out.extend_from_slice(text)?;
    Ok(())
}

pub(crate) fn append_number(out: &mut Vec<u8>, number: u64) -> Result<(), NoMemory>
    ensures { OnOk result (out.new.items ≡ out.old.items ++ decimal number) }
{
    let mut digits = Buffer::new();
    append_fixed(out, digits.format(number).as_bytes())
}

/// Appends a text that others chose, between two fixed ones.
pub(crate) fn append_tagged(
    alloc: Global,
    out: &mut Vec<u8>,
    before: &[u8],
    text: &[u8],
    after: &[u8],
) -> Result<(), NoMemory>
    ensures { OnOk result (out.new.items ≡ out.old.items ++ tags.tagged before.now text.now after.now) }
{
    append_fixed(out, before)?;
    append_html(alloc, out, text)?;
    append_fixed(out, after)
}

pub(crate) fn append_item(alloc: Global, out: &mut Vec<u8>, text: &[u8]) -> Result<(), NoMemory>
    ensures { OnOk result (out.new.items ≡ out.old.items ++ tags.item text.now) }
{
    append_tagged(alloc, out, b"<li>", text, b"</li>\n")
}

fn append_cells(alloc: Global, out: &mut Vec<u8>, texts: &[&[u8]]) -> Result<(), NoMemory>
    ensures { OnOk result (out.new.items ≡ out.old.items ++ flat_map tags.cell (read texts.now)) }
{
    for text in texts {
        append_tagged(alloc, out, b"<td>", text, b"</td>")?;
    }
    Ok(())
}

/// Appends a row of a table with these texts.
pub(crate) fn append_table_row(
    alloc: Global,
    out: &mut Vec<u8>,
    texts: &[&[u8]],
) -> Result<(), NoMemory>
    ensures { OnOk result (out.new.items ≡ out.old.items ++ tags.table_row (read texts.now)) }
{
    append_fixed(out, b"<tr>")?;
    append_cells(alloc, out, texts)?;
    append_fixed(out, b"</tr>\n")
}

/// Appends a fixed text between two others.
pub(crate) fn append_between(
    out: &mut Vec<u8>,
    before: &[u8],
    text: &[u8],
    after: &[u8],
) -> Result<(), NoMemory>
    ensures { OnOk result (out.new.items ≡ out.old.items ++ (before.now ++ (text.now ++ after.now))) }
{
    append_fixed(out, before)?;
    append_fixed(out, text)?;
    append_fixed(out, after)
}

fn append_head_cell(out: &mut Vec<u8>, name: &[u8]) -> Result<(), NoMemory>
    ensures { OnOk result (out.new.items ≡ out.old.items ++ tags.head_cell name.now) }
{
    append_between(out, b"<th scope=\"col\">", name, b"</th>")
}

fn append_head_cells(out: &mut Vec<u8>, names: &[&[u8]]) -> Result<(), NoMemory>
    ensures { OnOk result (out.new.items ≡ out.old.items ++ flat_map tags.head_cell (read names.now)) }
{
    for i in 0..names.len() {
        append_head_cell(out, names[i])?;
    }
    Ok(())
}

/// Appends the head of a table with these columns.
pub(crate) fn append_table_head(out: &mut Vec<u8>, names: &[&[u8]]) -> Result<(), NoMemory>
    ensures { OnOk result (out.new.items ≡ out.old.items ++ tags.table_head (read names.now)) }
{
    append_fixed(out, b"<thead><tr>")?;
    append_head_cells(out, names)?;
    append_fixed(out, b"</tr></thead>\n<tbody>\n")
}

/// Appends a number and what it counts.
pub(crate) fn append_count(out: &mut Vec<u8>, label: &[u8], number: u64) -> Result<(), NoMemory>
    ensures { OnOk result (out.new.items ≡ out.old.items ++ tags.count_box label.now number) }
{
    append_fixed(out, b"<div><dt>")?;
    append_fixed(out, label)?;
    append_fixed(out, b"</dt><dd>")?;
    append_number(out, number)?;
    append_fixed(out, b"</dd></div>\n")
}
