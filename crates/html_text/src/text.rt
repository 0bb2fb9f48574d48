ghost use Rattle.std.specs.Prelude.{◌≡◌, ◌++◌, OnOk};
ghost use Rattle.html_text.specs.Html as html;

use file_names::append_shown;
use hub_kinds::NoMemory;
use std::alloc::Global;

fn append_byte(out: &mut Vec<u8>, byte: u8) -> Result<(), NoMemory>
    ensures { OnOk result (out.new.items ≡ out.old.items ++ html.html_byte byte) }
{
    match byte {
        b'&' => out.extend_from_slice(b"&amp;")?,
        b'<' => out.extend_from_slice(b"&lt;")?,
        b'>' => out.extend_from_slice(b"&gt;")?,
        b'"' => out.extend_from_slice(b"&quot;")?,
        b'\'' => out.extend_from_slice(b"&#39;")?,
        _ => out.push(byte)?,
    }
    Ok(())
}

/// Appends lines to `out` as a page of HTML shows them, with their line feeds and whatever else they have. The only error is out of memory.
pub fn append_lines(out: &mut Vec<u8>, lines: &[u8]) -> Result<(), NoMemory>
    ensures { OnOk result (out.new.items ≡ out.old.items ++ html.html_bytes lines.now) }
{
    for byte in lines {
        append_byte(out, *byte)?;
    }
    Ok(())
}

/// Appends `text` to `out` as a page of HTML shows it, between tags or in a quoted value. The only error is out of memory.
pub fn append_html(alloc: Global, out: &mut Vec<u8>, text: &[u8]) -> Result<(), NoMemory>
    ensures { OnOk result (out.new.items ≡ out.old.items ++ html.html_text text.now) }
{
    let mut shown = Vec::new(alloc);
    append_shown(&mut shown, text)?;
    append_lines(out, shown.as_slice())
}
