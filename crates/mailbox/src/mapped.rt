ghost use Rattle.std.specs.Prelude.{◌≡◌, ◌++◌, ◌∷◌, true, OnOk, map, take, drop, List, ℕ, unwrap_or};
ghost use Rattle.x12_write.specs.Delimiters.{is_this};
ghost use Rattle.x12_write.specs.Extends.{Extends};
ghost use Rattle.mailbox.specs.Mailbox.{mapped_byte, mapped, inner_text, mapped_elements};

use hub_kinds::NoMemory;
use x12_bytes::Delims;
use x12_segs::{Parts, SegView};

/// A byte of a set, with the delimiters changed to the receiver's.
pub(crate) fn mapped_byte(from: &Delims, to: &Delims, byte: u8) -> u8
    ensures { result ≡ mapped_byte from.now to.now byte }
{
    if byte == from.element {
        to.element
    } else if byte == from.component {
        to.component
    } else if byte == from.terminator {
        to.terminator
    } else if is_repetition(from, byte) {
        repetition_or(to, byte)
    } else {
        byte
    }
}

fn is_repetition(from: &Delims, byte: u8) -> bool
    ensures { result ≡ is_this from.now.repetition byte }
{
    match from.repetition {
        Some(separator) => separator == byte,
        None => false,
    }
}

fn repetition_or(to: &Delims, byte: u8) -> u8
    ensures { result ≡ unwrap_or to.now.repetition byte }
{
    to.repetition.unwrap_or(byte)
}

/// Changes the delimiters among bytes of a set to the receiver's.
pub(crate) fn change(from: Delims, to: Delims, bytes: &mut [u8])
    ensures { bytes.new ≡ mapped from to bytes.old }
{
    for i in 0..bytes.len() {
        bytes[i] = mapped_byte(&from, &to, bytes[i]);
    }
}

/// Writes bytes of a set with the receiver's delimiters.
fn append_changed(
    out: &mut Vec<u8>,
    from: &Delims,
    to: &Delims,
    bytes: &[u8],
) -> Result<(), NoMemory>
    ensures text { OnOk result (out.new.items ≡ out.old.items ++ mapped from.now to.now bytes.now) }
    ensures kept { Extends out.old.items out.new.items }
{
    let start = out.len();
    out.extend_from_slice(bytes)?;
    change(*from, *to, &mut out[start..]);
    Ok(())
}

/// Whether no byte changes between these delimiters.
pub(crate) fn are_same(from: &Delims, to: &Delims) -> bool
    ensures { result ≡ true → from.now ≡ to.now }
{
    *from == *to
}

/// Writes bytes of a set with the receiver's delimiters.
fn append_mapped(
    out: &mut Vec<u8>,
    from: &Delims,
    to: &Delims,
    bytes: &[u8],
) -> Result<(), NoMemory>
    ensures text { OnOk result (out.new.items ≡ out.old.items ++ mapped from.now to.now bytes.now) }
    ensures kept { Extends out.old.items out.new.items }
{
    if are_same(from, to) {
        append_as_they_are(out, to, bytes)
    } else {
        append_changed(out, from, to, bytes)
    }
}

/// Writes bytes that have the receiver's delimiters already.
fn append_as_they_are(out: &mut Vec<u8>, to: &Delims, bytes: &[u8]) -> Result<(), NoMemory>
    ensures text { OnOk result (out.new.items ≡ out.old.items ++ mapped to.now to.now bytes.now) }
    ensures kept { Extends out.old.items out.new.items }
{
    out.extend_from_slice(bytes)?;
    Ok(())
}

/// Writes a segment of a set with the receiver's delimiters.
pub(crate) fn append_inner(
    out: &mut Vec<u8>,
    from: &Delims,
    to: &Delims,
    seg: &SegView<'_>,
) -> Result<(), NoMemory>
    ensures text { OnOk result (out.new.items ≡ out.old.items ++ inner_text from.now to.now seg.now) }
    ensures kept { Extends out.old.items out.new.items }
{
    append_mapped(out, from, to, seg.bytes())?;
    out.push(to.terminator)?;
    Ok(())
}

/// Writes the first of the elements that are left, where there is one, after an element separator, with the receiver's
/// delimiters.
pub(crate) fn append_next_element(
    out: &mut Vec<u8>,
    from: &Delims,
    to: &Delims,
    left: &mut Parts<'_>,
) -> Result<(), NoMemory>
    ensures text { OnOk result (out.new.items ≡ out.old.items ++ mapped_elements from.now to.now (take 1 left.old)) }
    ensures kept { Extends out.old.items out.new.items }
    ensures rest { OnOk result (left.new ≡ drop 1 left.old) }
{
    if let Some(part) = left.next() {
        out.push(to.element)?;
        append_mapped(out, from, to, part)?;
    }
    Ok(())
}

/// Writes the elements that are left, each after an element separator, with the receiver's delimiters.
pub(crate) fn append_mapped_elements(
    out: &mut Vec<u8>,
    from: &Delims,
    to: &Delims,
    mut left: Parts<'_>,
) -> Result<(), NoMemory>
    ensures text { OnOk result (out.new.items ≡ out.old.items ++ mapped_elements from.now to.now left.entry) }
    ensures kept { Extends out.old.items out.new.items }
{
    while let Some(part) = left.next() {
        out.push(to.element)?;
        append_mapped(out, from, to, part)?;
    }
    Ok(())
}
