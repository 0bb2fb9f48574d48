ghost use Rattle.std.specs.Prelude.{◌≡◌, ◌++◌, ◌≤◌, ◌<◌, [], ◌∷◌, List, All, OnOk, length, map, take};
ghost use Rattle.x12_write.specs.Extends.{Extends};
ghost use Rattle.x12_write.specs.Segment.{read, segment_text, end_text, elements_text, trimmed};

use hub_kinds::{Code, NoMemory, code_text};
use x12_bytes::Delims;

/// Writes a segment after what is there, without the empty elements at its end.
pub fn append_segment(
    out: &mut Vec<u8>,
    delims: &Delims,
    id: &[u8],
    elements: &[&[u8]],
) -> Result<(), NoMemory>
    ensures text { OnOk result
        (out.new.items ≡ out.old.items ++ segment_text delims.now id.now (read elements.now)) }
    ensures kept { Extends out.old.items out.new.items }
{
    out.extend_from_slice(id)?;
    append_end(out, delims, elements)
}

/// Writes the last elements of a segment and its terminator after what is there, without the empty elements
/// at the end.
pub fn append_end(out: &mut Vec<u8>, delims: &Delims, elements: &[&[u8]]) -> Result<(), NoMemory>
    ensures text { OnOk result
        (out.new.items ≡ out.old.items ++ end_text delims.now (read elements.now)) }
    ensures kept { Extends out.old.items out.new.items }
{
    append_used(out, delims.element, elements)?;
    out.push(delims.terminator)?;
    Ok(())
}

/// Writes each part after a separator, without the empty ones at the end.
pub fn append_used(out: &mut Vec<u8>, separator: u8, parts: &[&[u8]]) -> Result<(), NoMemory>
    ensures text { OnOk result
        (out.new.items ≡ out.old.items ++ elements_text separator (trimmed (read parts.now))) }
    ensures kept { Extends out.old.items out.new.items }
{
    append_elements(out, separator, &parts[..used(parts)])
}

/// Writes each element after a separator.
pub(crate) fn append_elements(
    out: &mut Vec<u8>,
    separator: u8,
    elements: &[&[u8]],
) -> Result<(), NoMemory>
    ensures text { OnOk result
        (out.new.items ≡ out.old.items ++ elements_text separator (read elements.now)) }
    ensures kept { Extends out.old.items out.new.items }
{
    for element in elements {
        out.push(separator)?;
        out.extend_from_slice(element)?;
    }
    Ok(())
}

/// Writes a segment whose last elements are codes, after what is there.
pub fn append_coded_segment<C: Code>(
    out: &mut Vec<u8>,
    delims: &Delims,
    id: &[u8],
    elements: &[&[u8]],
    codes: &[C],
) -> Result<(), NoMemory>
    requires { All (λ code. 0 < length (C.text code)) codes.now }
    ensures text { OnOk result
        (out.new.items
        ≡ out.old.items ++ segment_text delims.now id.now (read elements.now ++ map C.text codes.now)) }
    ensures kept { Extends out.old.items out.new.items }
{
    if codes.is_empty() {
        return append_segment(out, delims, id, elements);
    }
    out.extend_from_slice(id)?;
    append_elements(out, delims.element, elements)?;
    append_codes(out, delims.element, codes)?;
    out.push(delims.terminator)?;
    Ok(())
}

fn append_codes<C: Code>(out: &mut Vec<u8>, separator: u8, codes: &[C]) -> Result<(), NoMemory>
    ensures text { OnOk result
        (out.new.items ≡ out.old.items ++ elements_text separator (map C.text codes.now)) }
    ensures kept { Extends out.old.items out.new.items }
{
    for code in codes {
        out.push(separator)?;
        out.extend_from_slice(code_text(*code).as_bytes())?;
    }
    Ok(())
}

/// How many elements there are up to the last that isn't empty.
fn used(elements: &[&[u8]]) -> usize
    ensures bound { result ≤ length elements.now }
    ensures value { take result (read elements.now) ≡ trimmed (read elements.now) }
{
    let mut end = elements.len();
    while end > 0 && elements[end - 1].is_empty() {
        end -= 1;
    }
    end
}
