ghost use Rattle.std.specs.Prelude.{◌≡◌, Some};
ghost use Rattle.hub_kinds.specs.Codes.{segment_rank, element_rank};
ghost use Rattle.hub_kinds.specs.Fault.{elem_key, key_of, element_key_of};
ghost use Rattle.hub_kinds.specs.Rising.{order_by};

use crate::codes::{ElementCode, SegmentCode};
use crate::lent::Lent;
use std::cmp::Ordering;

/// The number of a component or a repetition that is not shown, and of a slot that is none.
pub const NO_NUMBER: u32 = 0;

/// A fault of a transaction set, as a segment or a missing segment shows it (999 guide, IK3). Its texts are lent from the
/// set's text and from the guide.
#[derive(Debug, Drop)]
pub struct Fault<'a> {
    /// The segment's number in the set, ST being 1; in 64 bits, so that it bounds no set.
    pub position: u64,
    /// The segment's id.
    pub id: Lent<'a>,
    /// The id of the innermost loop; empty where there is none.
    pub loop_id: Lent<'a>,
    /// What is wrong with the segment.
    pub code: SegmentCode,
    /// The number of the guide's slot; `NO_NUMBER` for a stray.
    pub slot: u32,
    /// What is wrong with an element of it, under the code of element errors.
    pub elem: Option<ElemFault<'a>>,
}

/// The part of a fault that speaks of an element (999 guide, IK4), with texts that are lent likewise.
#[derive(Debug, Drop)]
pub struct ElemFault<'a> {
    /// The element's number in the segment, from 1.
    pub element: u32,
    /// The component's number in the element, from 1; `NO_NUMBER` where none is shown.
    pub component: u32,
    /// The repetition's number, from 1; `NO_NUMBER` where none is shown.
    pub repetition: u32,
    /// What is wrong with the element.
    pub code: ElementCode,
    /// The element's reference number, as the guide writes it; empty where there is none.
    pub reference: Lent<'a>,
    /// The text that the rule names, whole; empty where it names none.
    pub copy: Lent<'a>,
}

/// What a fault says without its texts.
#[derive(Clone, Copy, Debug)]
pub struct FaultHead {
    /// The segment's number in the set, ST being 1.
    pub position: u64,
    /// What is wrong with the segment.
    pub code: SegmentCode,
    /// What is wrong with an element of it; none where the fault is not one of an element.
    pub element_code: Option<ElementCode>,
}

/// Which of two faults comes first: by position, segment code, slot, element, component, repetition, element
/// code (own). Texts aren't compared, so this is a total order of the keys and no `Ord` of `Fault`.
pub fn fault_order(a: &Fault, b: &Fault) -> Ordering
    ensures { result ≡ order_by key_of a.now b.now }
{
    key(a).cmp(&key(b))
}

/// Which of two faults of one segment's elements comes first: by element, component, repetition and code (own).
/// Texts aren't compared.
pub fn element_fault_order(a: &ElemFault, b: &ElemFault) -> Ordering
    ensures { result ≡ order_by element_key_of a.now b.now }
{
    elem_key(a).cmp(&elem_key(b))
}

pub(crate) fn key(fault: &Fault) -> [u64; 7]
    ensures { result ≡ key_of fault.now }
{
    let [element, component, repetition, code] = match &fault.elem {
        None => [0, 0, 0, 0],
        Some(elem) => elem_key(elem),
    };
    [
        fault.position,
        segment_rank(fault.code),
        u64::from(fault.slot),
        element,
        component,
        repetition,
        code,
    ]
}

fn elem_key(elem: &ElemFault) -> [u64; 4]
    ensures { result ≡ elem_key (Some elem.now) }
{
    [
        u64::from(elem.element),
        u64::from(elem.component),
        u64::from(elem.repetition),
        element_rank(elem.code),
    ]
}

pub(crate) fn segment_rank(code: SegmentCode) -> u64
    ensures { result ≡ segment_rank code }
{
    code as u64
}

pub(crate) fn element_rank(code: ElementCode) -> u64
    ensures { result ≡ element_rank code }
{
    code as u64
}
