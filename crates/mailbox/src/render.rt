ghost use Rattle.std.specs.Prelude.{◌≡◌, ◌++◌, ◌+◌, OnOk, IfOk, OnErr, length};
ghost use Rattle.std.specs.List.{flat_map};
ghost use Rattle.x12_write.specs.Extends.{Extends};
ghost use Rattle.mailbox.specs.Deliveries.{inner_in};
ghost use Rattle.answered_sets.specs.Judged.{delims_in};
ghost use Rattle.mailbox.specs.Mailbox.{set_header_text, inner_text, set_trailer_text, set_text};

use crate::blocking::inner_count;
use crate::gapless::inner_if_gapless;
use crate::inner::append_inners;
use crate::mapped::{append_mapped_elements, append_next_element};
use answered_sets::PlacedSet;
use env_index::SetEnvelope;
use hub_kinds::NoMemory;
use itoa::Buffer;
use x12_bytes::Delims;
use x12_segs::SegView;
use x12_write::{PaddedNumber, append_segment};

/// Writes a set's ST with its number written anew.
fn append_set_header(
    out: &mut Vec<u8>,
    from: &Delims,
    to: &Delims,
    header: &SegView<'_>,
    number: u32,
) -> Result<(), NoMemory>
    ensures text { OnOk result (out.new.items ≡ out.old.items ++ set_header_text from.now to.now header.now number) }
    ensures kept { Extends out.old.items out.new.items }
{
    out.extend_from_slice(b"ST")?;
    let mut left = header.elements();
    append_next_element(out, from, to, &mut left)?;
    let _old_number = left.next();
    out.push(to.element)?;
    out.extend_from_slice(PaddedNumber::of_set(number).bytes())?;
    append_mapped_elements(out, from, to, left)?;
    out.push(to.terminator)?;
    Ok(())
}

/// Writes the SE of a set with this many segments.
fn append_set_trailer(
    out: &mut Vec<u8>,
    to: &Delims,
    segments: u128,
    number: u32,
) -> Result<(), NoMemory>
    ensures text { OnOk result (out.new.items ≡ out.old.items ++ set_trailer_text to.now segments number) }
    ensures kept { Extends out.old.items out.new.items }
{
    let mut count = Buffer::new();
    let number = PaddedNumber::of_set(number);
    append_segment(
        out,
        to,
        b"SE",
        &[count.format(segments).as_bytes(), number.bytes()],
    )
}

/// Writes the ST of a placed set with its number written anew.
fn append_header_of(
    out: &mut Vec<u8>,
    to: &Delims,
    placed: &PlacedSet<'_, '_, '_>,
    set: &SetEnvelope<'_>,
    number: u32,
) -> Result<(), NoMemory>
    requires { set.now ≡ placed.now.set }
    ensures text { OnOk result (out.new.items
        ≡ out.old.items ++ set_header_text (delims_in placed.now) to.now placed.now.set.header number) }
    ensures kept { Extends out.old.items out.new.items }
{
    append_set_header(out, &placed.delims(), to, &set.header, number)
}

/// Writes the segments between ST and SE of a placed set, and answers how many there are.
fn append_inner_of<'a>(
    out: &mut Vec<u8>,
    to: &Delims,
    placed: &PlacedSet<'_, '_, 'a>,
    set: &SetEnvelope<'a>,
) -> Result<u64, NoMemory>
    requires { set.now ≡ placed.now.set }
    ensures text { OnOk result (out.new.items
        ≡ out.old.items ++ flat_map (inner_text (delims_in placed.now) to.now) (inner_in placed.now)) }
    ensures kept { Extends out.old.items out.new.items }
    ensures count { IfOk result (λ n. n ≡ length (inner_in placed.now)) }
{
    let from = placed.delims();
    let count = inner_count(set);
    let whole = inner_if_gapless(placed, set, from.terminator, count);
    append_inners(out, &from, to, whole, placed.behind_header(set), count)
}

/// Writes a placed set as it is delivered, as set number `number`.
pub(crate) fn append_set_of<'a>(
    out: &mut Vec<u8>,
    to: &Delims,
    placed: &PlacedSet<'_, '_, 'a>,
    set: &SetEnvelope<'a>,
    number: u32,
) -> Result<(), NoMemory>
    requires { set.now ≡ placed.now.set }
    ensures text { OnOk result (out.new.items ≡ out.old.items ++ set_text to.now placed.now number) }
    ensures kept { Extends out.old.items out.new.items }
{
    append_header_of(out, to, placed, set, number)?;
    let inner = append_inner_of(out, to, placed, set)?;
    append_set_trailer(out, to, u128::from(inner) + 2, number)
}

/// Writes a set as it is delivered, as set number `number`, after what is there: with the receiver's delimiters, ST02 and SE
/// written anew (X12.6, transaction set header and trailer). Where memory is refused a part of it may be there.
pub fn render_set(
    out: &mut Vec<u8>,
    to: &Delims,
    placed: &PlacedSet<'_, '_, '_>,
    number: u32,
) -> Result<(), NoMemory>
    ensures text { OnOk result (out.new.items ≡ out.old.items ++ set_text to.now placed.now number) }
    ensures kept { Extends out.old.items out.new.items }
{
    append_set_of(out, to, placed, &placed.set(), number)
}
