//! The fault of a row.
ghost use Rattle.std.specs.Prelude.{◌≡◌, List, slice_index_or};
ghost use Rattle.hub_kinds.specs.declared.texts.Pair.{Pair as PairValue};
ghost use Rattle.hub_kinds.specs.Fault.{head_of};
ghost use Rattle.hub_kinds.specs.Rows.{element_fault, fault_at, no_fault, pair_at, segment_fault, whole_index};

use crate::codes::{ElementCode, SegmentCode};
use crate::fault::{ElemFault, Fault, FaultHead};
use crate::lent::Lent;
use crate::row::{HALF, Row, RowKind};
use crate::texts::{Pair, pair_at};

/// The index of a fault that is kept whole.
pub(crate) fn whole_index(row: &Row) -> u64
    ensures { result ≡ whole_index row.now }
{
    u64::from(row.place) * HALF + u64::from(row.position)
}

fn copy_elem<'a>(elem: &ElemFault<'a>) -> ElemFault<'a>
    ensures { result ≡ elem.now }
{
    ElemFault {
        element: elem.element,
        component: elem.component,
        repetition: elem.repetition,
        code: elem.code,
        reference: Lent::new(elem.reference.bytes()),
        copy: Lent::new(elem.copy.bytes()),
    }
}

fn copy_fault<'a>(fault: &Fault<'a>) -> Fault<'a>
    ensures { result ≡ fault.now }
{
    let elem = match &fault.elem {
        None => None,
        Some(elem) => Some(copy_elem(elem)),
    };
    Fault {
        position: fault.position,
        id: Lent::new(fault.id.bytes()),
        loop_id: Lent::new(fault.loop_id.bytes()),
        code: fault.code,
        slot: fault.slot,
        elem,
    }
}

fn no_fault<'a>() -> Fault<'a>
    ensures { result ≡ no_fault }
{
    Fault {
        position: 0,
        id: Lent::new(b""),
        loop_id: Lent::new(b""),
        code: SegmentCode::UnrecognizedSegment,
        slot: 0,
        elem: None,
    }
}

pub(crate) fn whole_fault<'a>(whole: &[Fault<'a>], index: u64) -> Fault<'a>
    ensures { result ≡ slice_index_or whole.now index no_fault }
{
    match whole.get(index as usize) {
        None => no_fault(),
        Some(fault) => copy_fault(fault),
    }
}

fn segment_fault<'a>(
    pairs: &[Pair<'a>],
    row: &Row,
    code: SegmentCode,
    elem: Option<ElemFault<'a>>,
) -> Fault<'a>
    ensures { result ≡ segment_fault (pair_at pairs.now row.now.place) row.now code elem.entry }
{
    let (id, loop_id) = pair_at(pairs, row.place);
    Fault {
        position: u64::from(row.position),
        id: Lent::new(id),
        loop_id: Lent::new(loop_id),
        code,
        slot: u32::from(row.slot),
        elem,
    }
}

fn element_fault<'a>(pairs: &[Pair<'a>], row: &Row, code: ElementCode) -> ElemFault<'a>
    ensures { result ≡ element_fault (pair_at pairs.now row.now.value) row.now code }
{
    let (copy, reference) = pair_at(pairs, row.value);
    ElemFault {
        element: u32::from(row.element),
        component: u32::from(row.component),
        repetition: u32::from(row.repetition),
        code,
        reference: Lent::new(reference),
        copy: Lent::new(copy),
    }
}

/// The fault of a row.
pub(crate) fn fault_at<'a>(pairs: &[Pair<'a>], whole: &[Fault<'a>], row: &Row) -> Fault<'a>
    ensures { result ≡ fault_at pairs.now whole.now row.now }
{
    match row.kind {
        RowKind::Segment(code) => segment_fault(pairs, row, code, None),
        RowKind::Element(code) => {
            let elem = element_fault(pairs, row, code);
            segment_fault(pairs, row, SegmentCode::ElementErrors, Some(elem))
        }
        RowKind::Whole => whole_fault(whole, whole_index(row)),
    }
}

/// What a fault says without its texts.
fn fault_head(fault: &Fault) -> FaultHead
    ensures { result ≡ head_of fault.now }
{
    FaultHead {
        position: fault.position,
        code: fault.code,
        element_code: match &fault.elem {
            None => None,
            Some(elem) => Some(elem.code),
        },
    }
}

/// What the fault of a row says without its texts.
pub(crate) fn head_at(whole: &[Fault], row: &Row) -> FaultHead
    ensures { (pairs : List PairValue) → result ≡ head_of (fault_at pairs whole.now row.now) }
{
    let position = u64::from(row.position);
    match row.kind {
        RowKind::Segment(code) => FaultHead {
            position,
            code,
            element_code: None,
        },
        RowKind::Element(code) => FaultHead {
            position,
            code: SegmentCode::ElementErrors,
            element_code: Some(code),
        },
        RowKind::Whole => fault_head(&whole_fault(whole, whole_index(row))),
    }
}
