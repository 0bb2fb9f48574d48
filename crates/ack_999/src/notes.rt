ghost use Rattle.std.specs.Prelude.{◌≡◌, [], ◌∷◌, ◌++◌, OnOk};
ghost use Rattle.hub_kinds.specs.declared.fault.Fault.{Fault};
ghost use Rattle.ack_999.specs.Faults.{written_note, SegmentNote, ElementNote, id_text};
ghost use Rattle.ack_999.specs.Faults.{code_shown, position_text, number_text};
ghost use Rattle.x12_write.specs.Segment.{segment_text, end_text};
ghost use Rattle.x12_write.specs.Extends.{Extends};

use crate::copy::copied;
use hub_kinds::{ElemFault, Fault, NO_NUMBER, NoMemory, SegmentCode, code_text, is_segment_id};
use itoa::Buffer;
use x12_bytes::Delims;
use x12_write::{append_end, append_segment, append_used};

/// Writes IK3 after what is there.
pub(crate) fn append_segment_note(
    out: &mut Vec<u8>,
    delims: &Delims,
    fault: &Fault,
) -> Result<(), NoMemory>
    ensures text { OnOk result (out.new.items ≡ out.old.items ++ written_note delims.now (SegmentNote fault.now)) }
    ensures kept { Extends out.old.items out.new.items }
{
    let mut position = Buffer::new();
    append_four(
        out,
        delims,
        b"IK3",
        segment_id(fault.id.bytes()),
        position.format(fault.position).as_bytes(),
        fault.loop_id.bytes(),
        code_text(code_shown(fault)).as_bytes(),
    )
}

/// Writes a segment of four elements after what is there.
fn append_four<'a>(
    out: &mut Vec<u8>,
    delims: &Delims,
    id: &[u8],
    first: &'a [u8],
    second: &'a [u8],
    third: &'a [u8],
    fourth: &'a [u8],
) -> Result<(), NoMemory>
    ensures text { OnOk result
        (out.new.items
        ≡ out.old.items
        ++ segment_text delims.now id.now (first.now ∷ second.now ∷ third.now ∷ fourth.now ∷ [])) }
    ensures kept { Extends out.old.items out.new.items }
{
    append_segment(out, delims, id, &[first, second, third, fourth])
}

/// IK301: the id, where it can be one.
fn segment_id(id: &[u8]) -> &[u8]
    ensures { result.now ≡ id_text id.now }
{
    if is_segment_id(id) { id } else { b"ZZZ" }
}

/// IK304.
fn code_shown(fault: &Fault) -> SegmentCode
    ensures { result ≡ code_shown fault.now }
{
    match &fault.elem {
        None => fault.code,
        Some(_) => SegmentCode::ElementErrors,
    }
}

/// Writes IK4 after what is there.
pub(crate) fn append_element_note(
    out: &mut Vec<u8>,
    delims: &Delims,
    elem: &ElemFault,
) -> Result<(), NoMemory>
    ensures text { OnOk result (out.new.items ≡ out.old.items ++ written_note delims.now (ElementNote elem.now)) }
    ensures kept { Extends out.old.items out.new.items }
{
    out.extend_from_slice(b"IK4")?;
    out.push(delims.element)?;
    append_position(out, delims.component, elem)?;
    append_last_three(
        out,
        delims,
        elem.reference.bytes(),
        code_text(elem.code).as_bytes(),
        copied(delims, elem.copy.bytes()),
    )
}

/// Writes the last three elements of a segment and its terminator after what is there.
fn append_last_three<'a>(
    out: &mut Vec<u8>,
    delims: &Delims,
    first: &'a [u8],
    second: &'a [u8],
    third: &'a [u8],
) -> Result<(), NoMemory>
    ensures text { OnOk result (out.new.items ≡ out.old.items ++ end_text delims.now (first.now ∷ second.now ∷ third.now ∷ [])) }
    ensures kept { Extends out.old.items out.new.items }
{
    append_end(out, delims, &[first, second, third])
}

/// Writes IK401 after what is there.
fn append_position(out: &mut Vec<u8>, separator: u8, elem: &ElemFault) -> Result<(), NoMemory>
    ensures text { OnOk result (out.new.items ≡ out.old.items ++ position_text separator elem.now) }
    ensures kept { Extends out.old.items out.new.items }
{
    let mut element = Buffer::new();
    let mut component = Buffer::new();
    let mut repetition = Buffer::new();
    out.extend_from_slice(element.format(elem.element).as_bytes())?;
    append_used(
        out,
        separator,
        &[
            number(&mut component, elem.component),
            number(&mut repetition, elem.repetition),
        ],
    )
}

/// A number in decimal; nothing for `NO_NUMBER`.
fn number<'a>(digits: &'a mut Buffer, number: u32) -> &'a [u8]
    ensures { result.now ≡ number_text number }
{
    if number == NO_NUMBER {
        &[]
    } else {
        digits.format(number).as_bytes()
    }
}
