//! Guides that the check refuses, and one that it doesn't.
use super::rows::{Row, fault_of, guide_of, loop_of, plain, row_fault};
use guide_tree::{Guide, GuideFault, Node};
use std::alloc::{AllocError, Global};
use std::test::Fail;

/// Rows, and the fault of their guide.
const CHECKED: &[(&[Row], Option<GuideFault>)] = &[
    (&[], None),
    (
        &[Row::Segment("REF", 0, 1), Row::Segment("REF", 0, 1)],
        Some(GuideFault::Ambiguous(1, 2)),
    ),
    (
        &[Row::Segment("N1", 1, 2), Row::Loop("L", 0, 9, 1)],
        Some(GuideFault::BadTrigger(1)),
    ),
    (&[Row::Segment("REF", 2, 1)], Some(GuideFault::BadBounds(1))),
    (
        &[Row::Segment("BEG", 1, 1), Row::Conditioned("REF")],
        Some(GuideFault::BadCondition(2)),
    ),
    // a rival outside a loop, after many repetitions
    (
        &[
            Row::Segment("N1", 1, 1),
            Row::Segment("REF", 0, 1),
            Row::Loop("L", 0, 9, 2),
            Row::Segment("CTT", 0, 1),
            Row::Segment("REF", 0, 1),
        ],
        Some(GuideFault::Ambiguous(3, 5)),
    ),
    // a condition is judged before rivals
    (
        &[
            Row::Segment("REF", 0, 1),
            Row::Segment("REF", 0, 1),
            Row::Conditioned("CTT"),
        ],
        Some(GuideFault::BadCondition(3)),
    ),
];

/// Whether it is the fault that is wanted; if not, it is shown.
fn expect(
    alloc: Global,
    found: Option<GuideFault>,
    wanted: Option<GuideFault>,
) -> Result<(), Fail> {
    if found == wanted {
        return Ok(());
    }
    Err(Fail::new(format!(in alloc; "{found:?}")?))
}

fn expect_checked(alloc: Global, cases: &[(&[Row], Option<GuideFault>)]) -> Result<(), Fail> {
    for (rows, wanted) in cases {
        expect(alloc, row_fault(alloc, rows)?, *wanted)?;
    }
    Ok(())
}

#[test]
fn faults_of_rows(rt: HostRuntime) -> Result<(), Fail> {
    expect_checked(rt.alloc(), CHECKED)
}

/// A loop of a segment and of these nodes.
fn around(alloc: Global, id: &[u8], inner: Vec<Node>) -> Result<Node, AllocError> {
    let mut nodes = Vec::new(alloc);
    nodes.push(plain(alloc, id, 1, 1)?)?;
    for node in inner {
        nodes.push(node)?;
    }
    loop_of(alloc, b"L", 0, 9, nodes)
}

/// Loops nested so deep, each with a first segment of its own.
fn nested(alloc: Global, depth: u8) -> Result<Vec<Node>, AllocError> {
    let mut nodes = Vec::new(alloc);
    for level in 0..depth {
        let id = [b'A', b'A' + level % 26];
        let node = around(alloc, &id, nodes)?;
        nodes = Vec::new(alloc);
        nodes.push(node)?;
    }
    Ok(nodes)
}

/// This many segments, each with an id of its own.
fn many(alloc: Global, count: u32) -> Result<Vec<Node>, AllocError> {
    let mut nodes = Vec::new(alloc);
    for i in 0..count {
        let id = [
            b'A' + (i / 676 % 26) as u8,
            b'A' + (i / 26 % 26) as u8,
            b'A' + (i % 26) as u8,
        ];
        nodes.push(plain(alloc, &id, 0, 1)?)?;
    }
    Ok(nodes)
}

fn nested_fault(alloc: Global, depth: u8) -> Result<Option<GuideFault>, AllocError> {
    fault_of(alloc, nested(alloc, depth)?)
}

fn fault_of_many(alloc: Global, count: u32) -> Result<Option<GuideFault>, AllocError> {
    fault_of(alloc, many(alloc, count)?)
}

/// How deep loops are nested, and the fault.
const NESTED: &[(u8, Option<GuideFault>)] = &[(8, None), (9, Some(GuideFault::TooDeep))];

fn expect_nested(alloc: Global, cases: &[(u8, Option<GuideFault>)]) -> Result<(), Fail> {
    for (depth, wanted) in cases {
        expect(alloc, nested_fault(alloc, *depth)?, *wanted)?;
    }
    Ok(())
}

#[test]
fn limits(rt: HostRuntime) -> Result<(), Fail> {
    expect_nested(rt.alloc(), NESTED)?;
    let most = fault_of_many(rt.alloc(), 2_000)?;
    expect(rt.alloc(), most, None)?;
    let more = fault_of_many(rt.alloc(), 2_001)?;
    expect(rt.alloc(), more, Some(GuideFault::TooMany))
}

/// The numbers of the nodes and of what is in them, parents first.
fn push_numbers(nodes: &[Node], numbers: &mut Vec<u32>) -> Result<(), AllocError> {
    for node in nodes {
        match node {
            Node::Segment(slot) => numbers.push(slot.number)?,
            Node::Loop(head, inner) => {
                numbers.push(head.number)?;
                push_numbers(inner, numbers)?;
            }
        }
    }
    Ok(())
}

fn numbers_of(alloc: Global, guide: &Guide) -> Result<Vec<u32>, AllocError> {
    let mut numbers = Vec::new(alloc);
    push_numbers(&guide.rows().nodes, &mut numbers)?;
    Ok(numbers)
}

const PARTY: &[Row] = &[
    Row::Segment("BEG", 1, 1),
    Row::Segment("N1", 1, 1),
    Row::Segment("N3", 0, 2),
    Row::Loop("L", 0, 9, 2),
];

const PARTY_AND_TOTAL: &[Row] = &[
    Row::Segment("BEG", 1, 1),
    Row::Segment("N1", 1, 1),
    Row::Segment("N3", 0, 2),
    Row::Loop("L", 0, 9, 2),
    Row::Segment("CTT", 0, 1),
];

/// Whether the numbers of a guide's nodes are these, and no slot has the label.
fn expect_numbers(alloc: Global, guide: &Guide, numbers: &[u32], label: &[u8]) -> Result<(), Fail> {
    let found = numbers_of(alloc, guide)?;
    if found.as_slice() == numbers && guide.slot_labelled(label).is_none() {
        return Ok(());
    }
    Err(Fail::new(format!(in alloc; "{found:?}")?))
}

fn expect_numbers_of(
    alloc: Global,
    rows: &[Row],
    numbers: &[u32],
    label: &[u8],
) -> Result<(), Fail> {
    let guide = guide_of(alloc, rows)?;
    expect_numbers(alloc, &guide, numbers, label)
}

/// Slots are numbered parents first, whatever the rows say.
#[test]
fn numbers(rt: HostRuntime) -> Result<(), Fail> {
    expect_numbers_of(rt.alloc(), PARTY_AND_TOTAL, &[1, 2, 3, 4, 5], b"REF")
}

#[test]
fn refusal_numbers(rt: HostRuntime) {
    assert!(rt; GuideFault::BadCondition(1).number() == 6);
}

/// The id of the slot with a number; empty where no segment has it.
fn slot_id(guide: &Guide, number: u32) -> &[u8] {
    match guide.slot(number) {
        None => b"",
        Some(slot) => slot.id.as_slice(),
    }
}

/// Numbers, and the id of the slot that has it: a loop's number isn't a slot's.
const SLOTS: &[(u32, &[u8])] = &[(4, b"N3"), (2, b""), (5, b"")];

fn expect_slots(guide: &Guide, slots: &[(u32, &[u8])]) -> Result<(), Fail> {
    for (number, id) in slots {
        if slot_id(guide, *number) != *id {
            return Err("another slot".into());
        }
    }
    Ok(())
}

fn expect_slots_of(alloc: Global, rows: &[Row], slots: &[(u32, &[u8])]) -> Result<(), Fail> {
    let guide = guide_of(alloc, rows)?;
    expect_slots(&guide, slots)
}

#[test]
fn slots_by_their_numbers(rt: HostRuntime) -> Result<(), Fail> {
    expect_slots_of(rt.alloc(), PARTY, SLOTS)
}
