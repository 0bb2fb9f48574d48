ghost use Rattle.std.specs.Prelude.{◌≡◌, ◌++◌, ◌*◌, ◌<◌, ◌≤◌, OnOk, length};
ghost use Rattle.hub_kinds.specs.declared.fault.Fault.{Fault};
ghost use Rattle.hub_kinds.specs.Words.{head_of};
ghost use Rattle.x12_write.specs.Delimiters.{is_this};
ghost use Rattle.ack_999.specs.Faults.{element_position, notes, notes_on, notes_text, fault_segments};
ghost use Rattle.x12_write.specs.Segment.{segments_text};
ghost use Rattle.x12_write.specs.Extends.{Extends};

use crate::notes::{append_element_note, append_segment_note};
use hub_kinds::{Fault, FaultHead, Faults, NoMemory};
use x12_bytes::Delims;

/// Writes what is reported of a set's faults after what is there.
pub(crate) fn append_faults(
    out: &mut Vec<u8>,
    delims: &Delims,
    faults: &Faults,
) -> Result<(), NoMemory>
    ensures text { OnOk result (out.new.items ≡ out.old.items ++ segments_text delims.now (fault_segments delims.now faults.now)) }
    ensures kept { Extends out.old.items out.new.items }
{
    let mut before = None;
    for i in 0..faults.len() {
        let fault = faults.at(i);
        append_notes(out, delims, before, &fault)?;
        before = element_position(&fault);
    }
    Ok(())
}

/// Writes what is reported of one fault; `before` is the position of the fault before, where that is an element
/// fault.
fn append_notes(
    out: &mut Vec<u8>,
    delims: &Delims,
    before: Option<u64>,
    fault: &Fault,
) -> Result<(), NoMemory>
    ensures text { OnOk result (out.new.items ≡ out.old.items ++ notes_text delims.now (notes_on before fault.now)) }
    ensures kept { Extends out.old.items out.new.items }
{
    let Some(elem) = &fault.elem else {
        return append_segment_note(out, delims, fault);
    };
    if !is_this(before, fault.position) {
        append_segment_note(out, delims, fault)?;
    }
    append_element_note(out, delims, elem)
}

/// The position of the segment of an element fault.
fn element_position(fault: &Fault) -> Option<u64>
    ensures { result ≡ element_position fault.now }
{
    match &fault.elem {
        None => None,
        Some(_) => Some(fault.position),
    }
}

/// Whether there is a number, and it is this one.
fn is_this(number: Option<u64>, other: u64) -> bool
    ensures { result ≡ is_this number other }
{
    match number {
        Some(number) => number == other,
        None => false,
    }
}

/// How many segments report a set's faults.
pub(crate) fn fault_segment_count(faults: &Faults) -> u64
    ensures value { result ≡ length (notes faults.now) }
    ensures bound { result ≤ 2 * length faults.now }
    ensures few { length faults.now < 9223372036854775808 }
{
    let mut count = 0;
    let mut before = None;
    for i in 0..faults.len() {
        let head = faults.head(i);
        count += note_count(before, &head);
        before = position_of_element(&head);
    }
    count
}

/// The position of the segment of an element fault, by what it says without its texts.
fn position_of_element(head: &FaultHead) -> Option<u64>
    ensures { (f : Fault) → head.now ≡ head_of f → result ≡ element_position f }
{
    match head.element_code {
        None => None,
        Some(_) => Some(head.position),
    }
}

/// How many segments report one fault, by what it says without its texts.
fn note_count(before: Option<u64>, head: &FaultHead) -> u64
    ensures value { (f : Fault) → head.now ≡ head_of f → result ≡ length (notes_on before f) }
    ensures bound { result ≤ 2 }
{
    if head.element_code.is_none() || is_this(before, head.position) {
        1
    } else {
        2
    }
}
