//! The lines of what is wrong with segments and elements.
ghost use Rattle.std.specs.Prelude.{◌≡◌, ◌++◌, OnOk};
ghost use Rattle.ack_lines.specs.Lines as lines;

use crate::sentences::{
    COMPONENT, COPY, ELEMENT, ELEMENT_CODE, ELEMENT_NAME, GAP, GAP_CODE, GAP_ID, HAS, IN_LOOP, IS,
    REFERENCE, REPETITION, SEGMENT, SEGMENT_CODE, SEGMENT_NAME,
};
use crate::shown::{append_if, append_name, append_one, append_text, append_two};
use crate::words::{ELEMENT_WORDS, SEGMENT_WORDS, words_of};
use ack_read::{ElementTold, NoteTold, SegmentTold};
use guide_names::Names;
use hub_kinds::NoMemory;

/// Appends to `out` which segment is in error.
fn append_segment(
    out: &mut Vec<u8>,
    names: &Names,
    segment: &SegmentTold<'_>,
) -> Result<(), NoMemory>
    ensures { OnOk result (out.new.items ≡ out.old.items ++ lines.segment_place names.now segment.now) }
{
    let id = segment.id.bytes();
    append_two(out, SEGMENT, segment.position.bytes(), id)?;
    append_name(out, SEGMENT_NAME, names.segment(id))?;
    append_if(out, IN_LOOP, segment.loop_id.bytes())
}

/// Appends to `out` which segment is missing, and where.
fn append_gap(out: &mut Vec<u8>, names: &Names, segment: &SegmentTold<'_>) -> Result<(), NoMemory>
    ensures { OnOk result (out.new.items ≡ out.old.items ++ lines.gap_place names.now segment.now) }
{
    let id = segment.id.bytes();
    append_one(out, GAP, segment.position.bytes())?;
    append_if(out, IN_LOOP, segment.loop_id.bytes())?;
    append_one(out, GAP_ID, id)?;
    append_name(out, SEGMENT_NAME, names.segment(id))
}

/// Whether a segment with this code is missing.
fn is_of_missing(code: &[u8]) -> bool
    ensures { result ≡ lines.is_of_missing code.now }
{
    matches!(code, b"3" | b"I6" | b"I7" | b"I8")
}

/// Appends the line of an IK3 to `out`.
fn append_segment_line(
    out: &mut Vec<u8>,
    names: &Names,
    segment: &SegmentTold<'_>,
) -> Result<(), NoMemory>
    ensures { OnOk result (out.new.items ≡ out.old.items ++ lines.segment_line names.now segment.now) }
{
    let code = segment.code.bytes();
    let words = words_of(&SEGMENT_WORDS, code).as_bytes();
    if is_of_missing(code) {
        append_gap(out, names, segment)?;
        return append_two(out, GAP_CODE, words, code);
    }
    append_segment(out, names, segment)?;
    append_two(out, SEGMENT_CODE, words, code)
}

/// Appends the number of an element and its name to `out`, if it has a number.
fn append_reference(out: &mut Vec<u8>, names: &Names, reference: &[u8]) -> Result<(), NoMemory>
    ensures { OnOk result (out.new.items ≡ out.old.items ++ lines.reference_said names.now reference.now) }
{
    if reference.is_empty() {
        return Ok(());
    }
    append_one(out, REFERENCE, reference)?;
    append_name(out, ELEMENT_NAME, names.element(reference))?;
    append_text(out, ")")
}

/// Appends to `out` which element is in error.
fn append_element(
    out: &mut Vec<u8>,
    names: &Names,
    element: &ElementTold<'_>,
) -> Result<(), NoMemory>
    ensures { OnOk result (out.new.items ≡ out.old.items ++ lines.element_place names.now element.now) }
{
    append_one(out, ELEMENT, element.element.bytes())?;
    append_if(out, COMPONENT, element.component.bytes())?;
    append_if(out, REPETITION, element.repetition.bytes())?;
    append_reference(out, names, element.reference.bytes())
}

/// Whether the words of an element's code are said of its value.
fn is_of_value(code: &[u8]) -> bool
    ensures { result ≡ lines.is_of_value code.now }
{
    matches!(code, b"4" | b"5" | b"6" | b"7" | b"8" | b"9" | b"I6")
}

fn value_is(code: &[u8]) -> &'static str
    ensures { result.now ≡ lines.value_is code.now }
{
    if code == b"6".as_slice() { HAS } else { IS }
}

/// Appends to `out` what is wrong with an element, and its copy.
fn append_element_fault(out: &mut Vec<u8>, element: &ElementTold<'_>) -> Result<(), NoMemory>
    ensures { OnOk result (out.new.items ≡ out.old.items ++ lines.element_fault element.now) }
{
    let (code, copy) = (element.code.bytes(), element.copy.bytes());
    let words = words_of(&ELEMENT_WORDS, code).as_bytes();
    if is_of_value(code) {
        append_if(out, value_is(code), copy)?;
        return append_two(out, ELEMENT_CODE, words, code);
    }
    append_two(out, ELEMENT_CODE, words, code)?;
    append_if(out, COPY, copy)
}

/// Appends the line of an IK4, after this IK3, to `out`.
fn append_element_line(
    out: &mut Vec<u8>,
    names: &Names,
    segment: &SegmentTold<'_>,
    element: &ElementTold<'_>,
) -> Result<(), NoMemory>
    ensures { OnOk result (out.new.items ≡ out.old.items ++ lines.element_line names.now segment.now element.now) }
{
    append_segment(out, names, segment)?;
    append_element(out, names, element)?;
    append_text(out, ": ")?;
    append_element_fault(out, element)?;
    append_text(out, "\n")
}

/// Appends the line of `note` to `out`, with `head` in front.
fn append_note_line(
    out: &mut Vec<u8>,
    names: &Names,
    head: &[u8],
    note: &NoteTold<'_>,
) -> Result<(), NoMemory>
    ensures { OnOk result (out.new.items ≡ out.old.items ++ lines.note_line names.now head.now note.now) }
{
    out.extend_from_slice(head)?;
    match note {
        NoteTold::OfSegment(segment) => append_segment_line(out, names, segment),
        NoteTold::OfElement(segment, element) => append_element_line(out, names, segment, element),
    }
}

/// Whether an IK3 is reported by the IK4 after it.
fn is_told_by_next(note: &NoteTold<'_>, behind: &[NoteTold<'_>]) -> bool
    ensures { result ≡ lines.is_told_by_next note.now behind.now }
{
    matches!(note, NoteTold::OfSegment(_)) && matches!(behind, [NoteTold::OfElement(_, _), ..])
}

/// Appends the lines of `notes` to `out`, each with `head` in front.
pub(crate) fn append_note_lines(
    out: &mut Vec<u8>,
    names: &Names,
    head: &[u8],
    notes: &[NoteTold<'_>],
) -> Result<(), NoMemory>
    ensures { OnOk result (out.new.items ≡ out.old.items ++ lines.note_lines names.now head.now notes.now) }
{
    let mut left = notes;
    while let [note, behind @ ..] = left {
        if !is_told_by_next(note, behind) {
            append_note_line(out, names, head, note)?;
        }
        left = behind;
    }
    Ok(())
}
