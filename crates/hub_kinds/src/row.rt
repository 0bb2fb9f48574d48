//! A fault as a row of numbers, beside the texts that faults share.
ghost use Rattle.std.specs.Prelude.{◌≡◌, ◌<◌, ◌+◌, List, Some, None, length, IfOk, IsTrue};
ghost use Rattle.hub_kinds.specs.declared.row.RowKind.TheVariants.{Whole};
ghost use Rattle.hub_kinds.specs.declared.texts.Pair.{Pair};
ghost use Rattle.hub_kinds.specs.Rows.{Extends, Fits, FitsElement, IsRowOf, pair_at, whole_index};

use crate::codes::{ElementCode, SegmentCode};
use crate::fault::{ElemFault, Fault};
use crate::memory::NoMemory;
use crate::texts::{Texts, index_of};

/// What a row is.
#[derive(Clone, Copy, Debug)]
pub(crate) enum RowKind {
    /// A fault of a segment.
    Segment(SegmentCode),
    /// A fault of an element, under the code of element errors.
    Element(ElementCode),
    /// A fault that is kept whole: `position` and `place` are the low and the high half of its index.
    Whole,
}

/// A fault in 24 bytes: its numbers, and the indices of its texts.
#[derive(Clone, Copy, Debug)]
pub(crate) struct Row {
    /// The segment's number in the set.
    pub(crate) position: u32,
    /// The index of the segment's id and its loop's.
    pub(crate) place: u32,
    /// The index of the element's copy and its reference.
    pub(crate) value: u32,
    /// The number of the guide's slot.
    pub(crate) slot: u16,
    /// The element's number.
    pub(crate) element: u16,
    /// The component's number.
    pub(crate) component: u16,
    /// The repetition's number.
    pub(crate) repetition: u16,
    /// What it is.
    pub(crate) kind: RowKind,
}

/// How many values a half of an index has.
pub(crate) const HALF: u64 = 0x1_0000_0000;

/// Whether the numbers of a fault fit a row.
pub(crate) fn fits(fault: &Fault) -> bool
    ensures { IsTrue result → Fits fault.now }
{
    fault.position <= u64::from(u32::MAX) && is_small(fault.slot) && is_element_small(fault)
}

fn is_small(number: u32) -> bool
    ensures { IsTrue result → number < 65536 }
{
    number <= u32::from(u16::MAX)
}

/// Whether the numbers of a fault's element fit a row.
fn is_element_small(fault: &Fault) -> bool
    ensures { IsTrue result → FitsElement fault.now.code fault.now.elem }
{
    match &fault.elem {
        None => true,
        Some(elem) => {
            fault.code == SegmentCode::ElementErrors
                && is_small(elem.element)
                && is_small(elem.component)
                && is_small(elem.repetition)
        }
    }
}

/// The row of a fault of a segment, whose texts are at `place`.
fn segment_row(fault: &Fault, place: u32) -> Row
    requires position { fault.now.position < 4294967296 }
    requires slot { fault.now.slot < 65536 }
    ensures { (pairs : List Pair) → fault.now.elem ≡ None → place < length pairs
        → (pair_at pairs place).first ≡ fault.now.id → (pair_at pairs place).second ≡ fault.now.loop_id
        → IsRowOf pairs fault.now result }
{
    Row {
        position: fault.position as u32,
        place,
        value: 0,
        slot: fault.slot as u16,
        element: 0,
        component: 0,
        repetition: 0,
        kind: RowKind::Segment(fault.code),
    }
}

/// The row of a fault of this element, whose texts are at `place` and `value`.
fn element_row(fault: &Fault, elem: &ElemFault, place: u32, value: u32) -> Row
    requires position { fault.now.position < 4294967296 }
    requires slot { fault.now.slot < 65536 }
    requires element { FitsElement fault.now.code (Some elem.now) }
    ensures { (pairs : List Pair) → fault.now.elem ≡ Some elem.now → place < length pairs → value < length pairs
        → (pair_at pairs place).first ≡ fault.now.id → (pair_at pairs place).second ≡ fault.now.loop_id
        → (pair_at pairs value).first ≡ elem.now.copy → (pair_at pairs value).second ≡ elem.now.reference
        → IsRowOf pairs fault.now result }
{
    Row {
        position: fault.position as u32,
        place,
        value,
        slot: fault.slot as u16,
        element: elem.element as u16,
        component: elem.component as u16,
        repetition: elem.repetition as u16,
        kind: RowKind::Element(elem.code),
    }
}

/// The row of a fault whose numbers fit one. Its texts are added unless they are remembered.
pub(crate) fn row_of<'a>(texts: &mut Texts<'a>, fault: &Fault<'a>) -> Result<Row, NoMemory>
    requires fits { Fits fault.now }
    requires few { length texts.old.pairs.items + 1 < 4294967296 }
    ensures grown { Extends texts.old.pairs.items texts.new.pairs.items }
    ensures row { IfOk result (IsRowOf texts.new.pairs.items fault.now) }
{
    let hint = fault.slot as usize % 8;
    let place = index_of(texts, hint, fault.id.bytes(), fault.loop_id.bytes())?;
    match &fault.elem {
        None => Ok(segment_row(fault, place)),
        Some(elem) => {
            let hint = 8 + elem.element as usize % 8;
            let value = index_of(texts, hint, elem.copy.bytes(), elem.reference.bytes())?;
            Ok(element_row(fault, elem, place, value))
        }
    }
}

/// The row of a fault that is kept whole.
pub(crate) fn whole_row(index: u64) -> Row
    ensures kind { result.kind ≡ Whole }
    ensures index { whole_index result ≡ index }
{
    Row {
        position: (index % HALF) as u32,
        place: (index / HALF) as u32,
        value: 0,
        slot: 0,
        element: 0,
        component: 0,
        repetition: 0,
        kind: RowKind::Whole,
    }
}
