ghost use Rattle.std.specs.Prelude.{◌≡◌, ◌==◌, ◌++◌, ◌+◌, ◌≤◌, OnOk, IfOk, IfSome, length, take, drop, vec_len};
ghost use Rattle.std.specs.List.{flat_map};
ghost use Rattle.x12_write.specs.Extends.{Extends};
ghost use Rattle.mailbox.specs.Gapless.{AreWhole};
ghost use Rattle.mailbox.specs.Mailbox.{inner_text, mapped, mapped_byte};
ghost use Rattle.mailbox.specs.Read.{text_as_read};

use crate::mapped::{append_inner, are_same, change, mapped_byte};
use hub_kinds::NoMemory;
use x12_bytes::Delims;
use x12_segs::{SegView, Segments};

/// Writes the first of the segments that are left, `most` of them, each with the receiver's delimiters; answers how many there are.
fn append_one_by_one(
    out: &mut Vec<u8>,
    from: &Delims,
    to: &Delims,
    mut left: Segments<'_>,
    most: u64,
) -> Result<u64, NoMemory>
    ensures text { OnOk result (out.new.items ≡ out.old.items ++ flat_map (inner_text from.now to.now) (take most left.entry)) }
    ensures kept { Extends out.old.items out.new.items }
    ensures count { IfOk result (λ n. n ≡ length (take most left.entry)) }
{
    let mut written = 0;
    let mut count = most;
    while count > 0 {
        match left.next() {
            Some(seg) => append_inner(out, from, to, &seg)?,
            None => return Ok(written),
        }
        written += 1;
        count -= 1;
    }
    Ok(written)
}

/// Writes a segment as it is read, with the terminator of its text.
fn append_one_as_read(out: &mut Vec<u8>, from: &Delims, seg: &SegView<'_>) -> Result<(), NoMemory>
    ensures text { OnOk result (out.new.items ≡ out.old.items ++ text_as_read from.now seg.now) }
    ensures kept { Extends out.old.items out.new.items }
{
    out.extend_from_slice(seg.bytes())?;
    out.push(from.terminator)?;
    Ok(())
}

/// Writes them as they are read, each with the terminator of their text.
fn append_each_as_read(
    out: &mut Vec<u8>,
    from: &Delims,
    mut left: Segments<'_>,
    most: u64,
) -> Result<u64, NoMemory>
    ensures text { OnOk result (out.new.items ≡ out.old.items ++ flat_map (text_as_read from.now) (take most left.entry)) }
    ensures kept { Extends out.old.items out.new.items }
    ensures count { IfOk result (λ n. n ≡ length (take most left.entry)) }
{
    let mut written = 0;
    let mut count = most;
    while count > 0 {
        match left.next() {
            Some(seg) => append_one_as_read(out, from, &seg)?,
            None => return Ok(written),
        }
        written += 1;
        count -= 1;
    }
    Ok(written)
}

/// Adds the segments as they are read, where it may be known what they are, and that there are this many.
fn append_as_read(
    out: &mut Vec<u8>,
    from: &Delims,
    whole: Option<&[u8]>,
    left: Segments<'_>,
    most: u64,
) -> Result<u64, NoMemory>
    requires { IfSome whole (λ bytes. AreWhole from.now bytes.now most (take most left)) }
    ensures text { OnOk result (out.new.items ≡ out.old.items ++ flat_map (text_as_read from.now) (take most left.entry)) }
    ensures kept { Extends out.old.items out.new.items }
    ensures count { IfOk result (λ n. n ≡ length (take most left.entry)) }
{
    match whole {
        None => append_each_as_read(out, from, left, most),
        Some(bytes) => {
            out.extend_from_slice(bytes)?;
            Ok(most)
        }
    }
}

/// Changes the delimiters to the receiver's from a place on.
fn change_from(out: &mut Vec<u8>, start: usize, from: &Delims, to: &Delims)
    requires { start ≤ vec_len out.old }
    ensures { out.new.items ≡ take start out.old.items ++ mapped from.now to.now (drop start out.old.items) }
{
    change(*from, *to, &mut out[start..]);
}

/// Writes them with the receiver's delimiters, where the terminator becomes the receiver's as any byte does: all are changed at
/// once, which costs less.
fn append_together(
    out: &mut Vec<u8>,
    from: &Delims,
    to: &Delims,
    whole: Option<&[u8]>,
    left: Segments<'_>,
    most: u64,
) -> Result<u64, NoMemory>
    requires terminator { mapped_byte from.now to.now from.now.terminator ≡ to.now.terminator }
    requires whole { IfSome whole (λ bytes. AreWhole from.now bytes.now most (take most left)) }
    ensures text { OnOk result (out.new.items ≡ out.old.items ++ flat_map (inner_text from.now to.now) (take most left.entry)) }
    ensures kept { Extends out.old.items out.new.items }
    ensures count { IfOk result (λ n. n ≡ length (take most left.entry)) }
{
    let start = out.len();
    let written = append_as_read(out, from, whole, left, most)?;
    change_from(out, start, from, to);
    Ok(written)
}

/// Writes them where the receiver has the same delimiters: as they are read.
fn append_unchanged(
    out: &mut Vec<u8>,
    delims: &Delims,
    whole: Option<&[u8]>,
    left: Segments<'_>,
    most: u64,
) -> Result<u64, NoMemory>
    requires { IfSome whole (λ bytes. AreWhole delims.now bytes.now most (take most left)) }
    ensures text { OnOk result (out.new.items ≡ out.old.items ++ flat_map (inner_text delims.now delims.now) (take most left.entry)) }
    ensures kept { Extends out.old.items out.new.items }
    ensures count { IfOk result (λ n. n ≡ length (take most left.entry)) }
{
    append_as_read(out, delims, whole, left, most)
}

/// Whether the terminator becomes the receiver's as any byte does: where no other delimiter is the same byte.
fn changes_terminator(from: &Delims, to: &Delims) -> bool
    ensures { result ≡ (mapped_byte from.now to.now from.now.terminator == to.now.terminator) }
{
    mapped_byte(from, to, from.terminator) == to.terminator
}

/// Writes the first of the segments that are left, `most` of them, with the receiver's delimiters; answers how many there are. What they
/// are as they are read may be known, and that there are this many.
pub(crate) fn append_inners(
    out: &mut Vec<u8>,
    from: &Delims,
    to: &Delims,
    whole: Option<&[u8]>,
    left: Segments<'_>,
    most: u64,
) -> Result<u64, NoMemory>
    requires { IfSome whole (λ bytes. AreWhole from.now bytes.now most (take most left)) }
    ensures text { OnOk result (out.new.items ≡ out.old.items ++ flat_map (inner_text from.now to.now) (take most left.entry)) }
    ensures kept { Extends out.old.items out.new.items }
    ensures count { IfOk result (λ n. n ≡ length (take most left.entry)) }
{
    if are_same(from, to) {
        append_unchanged(out, to, whole, left, most)
    } else if changes_terminator(from, to) {
        append_together(out, from, to, whole, left, most)
    } else {
        append_one_by_one(out, from, to, left, most)
    }
}
