ghost use Rattle.std.specs.Prelude.{◌≡◌, ◌++◌, OnOk, decimal};
ghost use Rattle.guide_page.specs.Tags as tags;

use guide_tree::Codes;
use html_text::{append_html, append_lines};
use hub_kinds::{NoMemory, Text};
use itoa::Buffer;
use std::alloc::Global;

/// Appends markup, or another text that is fixed.
pub(crate) fn append_fixed(out: &mut Vec<u8>, text: &[u8]) -> Result<(), NoMemory>
    ensures { OnOk result (out.new.items ≡ out.old.items ++ text.now) }
{
    out.extend_from_slice(text)?;
    Ok(())
}

pub(crate) fn append_number(out: &mut Vec<u8>, number: u64) -> Result<(), NoMemory>
    ensures { OnOk result (out.new.items ≡ out.old.items ++ decimal number) }
{
    let mut digits = Buffer::new();
    append_fixed(out, digits.format(number).as_bytes())
}

pub(crate) fn append_small(out: &mut Vec<u8>, number: u32) -> Result<(), NoMemory>
    ensures { OnOk result (out.new.items ≡ out.old.items ++ decimal number) }
{
    let mut digits = Buffer::new();
    append_fixed(out, digits.format(number).as_bytes())
}

/// Appends a text of the guide between two fixed ones.
pub(crate) fn append_tagged(
    alloc: Global,
    out: &mut Vec<u8>,
    before: &[u8],
    text: &[u8],
    after: &[u8],
) -> Result<(), NoMemory>
    ensures { OnOk result (out.new.items ≡ out.old.items ++ tags.tagged before.now text.now after.now) }
{
    append_fixed(out, before)?;
    append_html(alloc, out, text)?;
    append_fixed(out, after)
}

/// Appends a code, an id or another text of a file.
pub(crate) fn append_code(alloc: Global, out: &mut Vec<u8>, text: &[u8]) -> Result<(), NoMemory>
    ensures { OnOk result (out.new.items ≡ out.old.items ++ tags.code_part text.now) }
{
    append_tagged(alloc, out, b"<code>", text, b"</code> ")
}

pub(crate) fn append_codes(alloc: Global, out: &mut Vec<u8>, texts: &[Text]) -> Result<(), NoMemory>
    ensures { OnOk result (out.new.items ≡ out.old.items ++ tags.codes_part texts.now) }
{
    for i in 0..texts.len() {
        append_code(alloc, out, texts[i].as_slice())?;
    }
    Ok(())
}

pub(crate) fn append_cell(alloc: Global, out: &mut Vec<u8>, text: &[u8]) -> Result<(), NoMemory>
    ensures { OnOk result (out.new.items ≡ out.old.items ++ tags.cell text.now) }
{
    append_tagged(alloc, out, b"<td>", text, b"</td>")
}

/// Appends a cell with a text of several lines.
pub(crate) fn append_lines_cell(out: &mut Vec<u8>, text: &Text) -> Result<(), NoMemory>
    ensures { OnOk result (out.new.items ≡ out.old.items ++ tags.lines_cell text.now) }
{
    append_fixed(out, b"<td>")?;
    append_lines(out, text.as_slice())?;
    append_fixed(out, b"</td>")
}

/// Appends the head of a row.
pub(crate) fn append_row_head(alloc: Global, out: &mut Vec<u8>, head: &[u8]) -> Result<(), NoMemory>
    ensures { OnOk result (out.new.items ≡ out.old.items ++ tags.row_head head.now) }
{
    append_tagged(alloc, out, b"<tr><th scope=\"row\">", head, b"</th>")
}

pub(crate) fn append_row_end(out: &mut Vec<u8>) -> Result<(), NoMemory>
    ensures { OnOk result (out.new.items ≡ out.old.items ++ tags.row_end) }
{
    append_fixed(out, b"</tr>\n")
}

pub(crate) fn append_table_end(out: &mut Vec<u8>) -> Result<(), NoMemory>
    ensures { OnOk result (out.new.items ≡ out.old.items ++ tags.table_end) }
{
    append_fixed(out, b"</tbody>\n</table>\n")
}

pub(crate) fn append_text(alloc: Global, out: &mut Vec<u8>, text: &Text) -> Result<(), NoMemory>
    ensures { OnOk result (out.new.items ≡ out.old.items ++ tags.code_part text.now) }
{
    append_code(alloc, out, text.as_slice())
}

pub(crate) fn append_text_cell(
    alloc: Global,
    out: &mut Vec<u8>,
    text: &Text,
) -> Result<(), NoMemory>
    ensures { OnOk result (out.new.items ≡ out.old.items ++ tags.cell text.now) }
{
    append_cell(alloc, out, text.as_slice())
}

pub(crate) fn append_code_list(
    alloc: Global,
    out: &mut Vec<u8>,
    codes: &Codes,
) -> Result<(), NoMemory>
    ensures { OnOk result (out.new.items ≡ out.old.items ++ tags.codes_part codes.now) }
{
    append_codes(alloc, out, codes.as_slice())
}
