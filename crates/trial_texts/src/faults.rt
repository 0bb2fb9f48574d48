//! The order of faults, which asks their numbers and codes alone, and the memory that one takes.
use crate::texts::holds;
use hub_kinds::{ElemFault, ElementCode, Fault, Lent, SegmentCode, fault_order};
use std::cmp::Ordering;
use std::mem::size_of;
use std::test::Fail;

// a set may have one for each of its elements; with texts that are lent it takes 104 bytes
const _: () = prove!(size_of::<Fault>() <= 150);

/// A fault that is shown by its numbers, the segment's id and the copy.
struct Row {
    position: u64,
    id: &'static [u8],
    code: SegmentCode,
    element: Option<u32>,
    copy: &'static [u8],
}

/// Element 2 of the third segment, a REF.
const FIRST: Row = Row {
    position: 3,
    id: b"REF",
    code: SegmentCode::ElementErrors,
    element: Some(2),
    copy: b"AA",
};

/// A row of a DTM, with another copy.
const EQUAL: Row = Row {
    position: 3,
    id: b"DTM",
    code: SegmentCode::ElementErrors,
    element: Some(2),
    copy: b"B",
};

const NEXT_ELEMENT: Row = Row {
    position: 3,
    id: b"REF",
    code: SegmentCode::ElementErrors,
    element: Some(3),
    copy: b"AA",
};

const NEXT_SEGMENT: Row = Row {
    position: 4,
    id: b"REF",
    code: SegmentCode::ElementErrors,
    element: Some(1),
    copy: b"AA",
};

/// A fault of the segment alone.
const WHOLE: Row = Row {
    position: 3,
    id: b"REF",
    code: SegmentCode::ElementErrors,
    element: None,
    copy: b"AA",
};

/// A fault under a later code.
const UNUSED: Row = Row {
    position: 3,
    id: b"REF",
    code: SegmentCode::NotUsedPresent,
    element: Some(1),
    copy: b"AA",
};

/// Two faults, and how they are ordered.
const CASES: &[(Row, Row, Ordering)] = &[
    (FIRST, EQUAL, Ordering::Equal),
    (FIRST, NEXT_ELEMENT, Ordering::Less),
    (NEXT_SEGMENT, NEXT_ELEMENT, Ordering::Greater),
    (WHOLE, FIRST, Ordering::Less),
    (UNUSED, NEXT_ELEMENT, Ordering::Greater),
];

/// An element that is too long.
fn elem(row: &Row) -> Option<ElemFault<'static>> {
    Some(ElemFault {
        element: row.element?,
        component: 0,
        repetition: 0,
        code: ElementCode::TooLong,
        reference: Lent::new(b"352"),
        copy: Lent::new(row.copy),
    })
}

fn fault(row: &Row) -> Fault<'static> {
    Fault {
        position: row.position,
        id: Lent::new(row.id),
        loop_id: Lent::new(b""),
        code: row.code,
        slot: 4,
        elem: elem(row),
    }
}

/// How two faults are ordered.
fn order(first: &Row, second: &Row) -> Ordering {
    fault_order(&fault(first), &fault(second))
}

fn expect_order(case: &(Row, Row, Ordering)) -> Result<(), Fail> {
    let (first, second, wanted) = case;
    holds(order(first, second) == *wanted, "faults in another order")
}

fn expect_orders(cases: &[(Row, Row, Ordering)]) -> Result<(), Fail> {
    for case in cases {
        expect_order(case)?;
    }
    Ok(())
}

#[test]
fn orders_faults_by_their_numbers_alone(_rt: HostRuntime) -> Result<(), Fail> {
    expect_orders(CASES)
}
