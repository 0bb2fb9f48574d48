ghost use Rattle.std.specs.Prelude.{◌≡◌, ◌≤◌, ◌++◌, ◌∷◌, [], Ok, IfOk, OnOk, cond, decimal, drop, if◌then◌else◌, length, slice_range, take};
ghost use Rattle.x12_bytes.specs.Header.{header_at};
ghost use Rattle.sets_again.specs.Text as parts;

use crate::fits::parted;
use env_index::{GroupEnvelope, Interchange, SetEnvelope};
use hub_kinds::NoMemory;
use itoa::Buffer;
use x12_bytes::{Delims, HEADER_LEN};

fn append(out: &mut Vec<u8>, text: &[u8]) -> Result<(), NoMemory>
    ensures { OnOk result (out.new.items ≡ out.old.items ++ text.now) }
{
    out.extend_from_slice(text)?;
    Ok(())
}

/// Appends `text`, and a byte after it.
fn append_ended(out: &mut Vec<u8>, text: &[u8], byte: u8) -> Result<(), NoMemory>
    ensures { OnOk result (out.new.items ≡ out.old.items ++ (text.now ++ byte ∷ [])) }
{
    append(out, text)?;
    out.push(byte)?;
    Ok(())
}

fn append_count(out: &mut Vec<u8>, count: usize, byte: u8) -> Result<(), NoMemory>
    ensures { OnOk result (out.new.items ≡ out.old.items ++ (decimal count ++ byte ∷ [])) }
{
    let mut digits = Buffer::new();
    append_ended(out, digits.format(count as u64).as_bytes(), byte)
}

/// Appends a trailer with this id, count and number.
fn append_trailer(
    out: &mut Vec<u8>,
    delims: Delims,
    id: &[u8],
    count: usize,
    number: &[u8],
) -> Result<(), NoMemory>
    ensures { OnOk result (out.new.items ≡ out.old.items ++ parts.trailer_text delims id.now count number.now) }
{
    append_ended(out, id, delims.element)?;
    append_count(out, count, delims.element)?;
    append_ended(out, number, delims.terminator)
}

/// The bytes of `text` from `start` to `end`; nothing of what it doesn't have.
fn range_of(text: &[u8], start: usize, end: usize) -> &[u8]
    ensures { result.now ≡ slice_range text.now start end }
{
    let (_, from) = parted(text, start);
    let (here, _) = parted(from, end.saturating_sub(start));
    here
}

/// The 106 bytes of `text` from `start` on.
fn header_bytes(text: &[u8], start: usize) -> &[u8]
    ensures { result.now ≡ header_at text.now start }
{
    let (_, from) = parted(text, start);
    let (here, _) = parted(from, HEADER_LEN);
    here
}

/// Appends `set` if it is chosen.
fn append_set(
    out: &mut Vec<u8>,
    text: &[u8],
    set: &SetEnvelope<'_>,
    is_chosen: bool,
) -> Result<(), NoMemory>
    ensures { OnOk result (out.new.items
        ≡ out.old.items ++ (if is_chosen then parts.set_bytes text.now set.now else [])) }
{
    if is_chosen {
        append(out, range_of(text, set.header.start(), set.end))
    } else {
        Ok(())
    }
}

/// Appends the chosen sets of a group.
fn append_sets(
    out: &mut Vec<u8>,
    text: &[u8],
    group: &GroupEnvelope<'_, '_>,
    chosen: &[bool],
) -> Result<(), NoMemory>
    requires { length chosen.now ≤ length group.now.sets }
    ensures { OnOk result (out.new.items ≡ out.old.items ++ parts.chosen_sets text.now group.now.sets chosen.now) }
{
    for i in 0..chosen.len() {
        let set = group.set(i);
        append_set(out, text, &set, chosen[i])?;
    }
    Ok(())
}

fn has_any(chosen: &[bool]) -> bool
    ensures { result ≡ parts.has_any chosen.now }
{
    chosen.iter().any(|is| *is)
}

fn count_of(chosen: &[bool]) -> usize
    ensures { result ≡ parts.count_of chosen.now }
{
    let mut count = 0;
    for is in chosen {
        if *is {
            count += 1;
        }
    }
    count
}

fn append_group(
    out: &mut Vec<u8>,
    text: &[u8],
    delims: Delims,
    group: &GroupEnvelope<'_, '_>,
    chosen: &[bool],
) -> Result<(), NoMemory>
    requires { length chosen.now ≤ length group.now.sets }
    ensures { OnOk result (out.new.items ≡ out.old.items ++ parts.group_text text.now delims group.now chosen.now) }
{
    let header = group.header();
    append_ended(out, header.bytes(), delims.terminator)?;
    append_sets(out, text, group, chosen)?;
    append_trailer(out, delims, b"GE", count_of(chosen), header.element(6))
}

/// Appends a group with its chosen sets, if it has one, and says how many groups that are.
fn append_group_part(
    out: &mut Vec<u8>,
    text: &[u8],
    delims: Delims,
    group: &GroupEnvelope<'_, '_>,
    chosen: &[bool],
) -> Result<usize, NoMemory>
    requires { length chosen.now ≤ length group.now.sets }
    ensures text { OnOk result (out.new.items ≡ out.old.items ++ parts.group_part text.now delims group.now chosen.now) }
    ensures count { IfOk result (λ count. count ≡ cond (parts.has_any chosen.now) 1 0) }
{
    if has_any(chosen) {
        append_group(out, text, delims, group, chosen)?;
        Ok(1)
    } else {
        Ok(0)
    }
}

/// Appends the groups of an interchange that have a chosen set, and says how many these are.
fn append_groups(
    out: &mut Vec<u8>,
    text: &[u8],
    delims: Delims,
    interchange: &Interchange<'_>,
    chosen: &[bool],
) -> Result<usize, NoMemory>
    ensures text { OnOk result (out.new.items
        ≡ out.old.items ++ parts.groups_text text.now delims interchange.now.content.groups chosen.now) }
    ensures count { IfOk result (λ count. count ≡ parts.groups_count interchange.now.content.groups chosen.now) }
{
    let mut rest = chosen;
    let mut count = 0;
    for i in 0..interchange.group_count() {
        let group = interchange.group(i);
        let (here, after) = parted(rest, group.set_count());
        count += append_group_part(out, text, delims, &group, here)?;
        rest = after;
    }
    Ok(count)
}

fn append_interchange(
    out: &mut Vec<u8>,
    text: &[u8],
    interchange: &Interchange<'_>,
    chosen: &[bool],
) -> Result<(), NoMemory>
    ensures { OnOk result (out.new.items ≡ out.old.items ++ parts.interchange_text text.now interchange.now chosen.now) }
{
    let header = interchange.header();
    let delims = header.delims();
    let start = interchange.start();
    append(out, header_bytes(text, start))?;
    let count = append_groups(out, text, delims, interchange, chosen)?;
    append_trailer(out, delims, b"IEA", count, header.field(13))
}

/// Appends an interchange with its chosen sets, if it has one.
pub(crate) fn append_part(
    out: &mut Vec<u8>,
    text: &[u8],
    interchange: &Interchange<'_>,
    chosen: &[bool],
) -> Result<(), NoMemory>
    ensures { OnOk result (out.new.items ≡ out.old.items ++ parts.interchange_part text.now interchange.now chosen.now) }
{
    if has_any(chosen) {
        append_interchange(out, text, interchange, chosen)
    } else {
        Ok(())
    }
}
