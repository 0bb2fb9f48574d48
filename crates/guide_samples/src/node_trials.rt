//! Trials of the nodes of a guide, in its order: how often segments and loops are used, and then what is in them.
use crate::build::{last_number, piece_of, uses};
use crate::hierarchy_trials::push_hierarchy;
use crate::slot_trials::push_slot;
use crate::trial::{Expected, Sample, Trial, push_trial, run_of, segment};
use crate::write::Change;
use guide_tree::{Node, Slot};
use hub_kinds::{NoMemory, SegmentCode};
use std::alloc::Global;

/// How many segments a trial has more than the sample at most.
const MOST_ADDED: u64 = 2_000;

/// The uses of a node in a sample: its first pieces in a row, and where the last use among them begins.
#[derive(Clone, Copy)]
struct Uses {
    from: usize,
    last: usize,
    to: usize,
    count: u32,
}

/// The uses of a node; none if the sample has none.
fn uses_of(sample: &Sample, node: &Node) -> Option<Uses> {
    let (from, to) = run_of(sample.pieces, node.number(), last_number(node))?;
    let first = sample.pieces.get(from)?.slot.number;
    let mut found = Uses {
        from,
        last: from,
        to,
        count: 0,
    };
    for k in from..to {
        if let Some(piece) = sample.pieces.get(k)
            && piece.slot.number == first
        {
            found.last = k;
            found.count = found.count.saturating_add(1);
        }
    }
    Some(found)
}

fn expected(node: &Node, code: SegmentCode) -> Expected {
    Expected::of_segment(code, node.number())
}

/// The codes of a node that is used too seldom, and of one that is used too often.
fn codes_of(node: &Node) -> (SegmentCode, SegmentCode) {
    match node {
        Node::Segment(_) => (SegmentCode::SegmentTooSeldom, SegmentCode::SegmentTooOften),
        Node::Loop(_, _) => (SegmentCode::LoopTooSeldom, SegmentCode::LoopTooOften),
    }
}

/// Trials without a node, and with too few uses of it.
fn push_few(
    alloc: Global,
    trials: &mut Vec<Trial>,
    node: &Node,
    found: &Uses,
) -> Result<(), NoMemory> {
    let (least, _) = uses(node);
    if least >= 1 {
        push_trial(
            alloc,
            trials,
            expected(node, SegmentCode::RequiredSegmentMissing),
            Change::Without(found.from, found.to),
        )?;
    }
    if least >= 2 {
        push_trial(
            alloc,
            trials,
            expected(node, codes_of(node).0),
            Change::Without(found.last, found.to),
        )?;
    }
    Ok(())
}

/// A trial with one use of a node more than it may have, unless that takes too many segments.
fn push_often(
    alloc: Global,
    trials: &mut Vec<Trial>,
    node: &Node,
    found: &Uses,
) -> Result<(), NoMemory> {
    let (_, most) = uses(node);
    let times = most.saturating_sub(found.count).saturating_add(1);
    let length = found.to.saturating_sub(found.last) as u64;
    if u64::from(times).saturating_mul(length) > MOST_ADDED {
        return Ok(());
    }
    push_trial(
        alloc,
        trials,
        expected(node, codes_of(node).1),
        Change::Again(found.last, found.to, times),
    )
}

/// The first piece of a sample whose slot comes after one with a number.
fn first_after(sample: &Sample, number: u32) -> usize {
    for k in 0..sample.pieces.len() {
        if sample.pieces[k].slot.number > number {
            return k;
        }
    }
    sample.pieces.len()
}

/// A trial with a segment of a slot that may have none.
fn push_unused(
    alloc: Global,
    trials: &mut Vec<Trial>,
    sample: &Sample,
    node: &Node,
    slot: &Slot,
) -> Result<(), NoMemory> {
    if slot.max >= 1 {
        return Ok(());
    }
    let Some(piece) = piece_of(alloc, sample.plan, slot)? else {
        return Ok(());
    };
    let text = segment(alloc, slot.id.as_slice(), piece.texts.as_slice())?;
    push_trial(
        alloc,
        trials,
        expected(node, SegmentCode::NotUsedPresent),
        Change::Before(first_after(sample, slot.number), text),
    )
}

/// Trials of a segment and its elements. The first segment of a loop is there as often as the loop.
fn push_segment(
    alloc: Global,
    trials: &mut Vec<Trial>,
    sample: &Sample,
    node: &Node,
    slot: &Slot,
    begins_loop: bool,
) -> Result<(), NoMemory> {
    let Some(found) = uses_of(sample, node) else {
        return push_unused(alloc, trials, sample, node, slot);
    };
    if !begins_loop {
        push_few(alloc, trials, node, &found)?;
        push_often(alloc, trials, node, &found)?;
    }
    if slot.id.as_slice() == b"HL".as_slice() {
        push_hierarchy(alloc, trials, sample, slot)
    } else {
        push_slot(alloc, trials, sample, found.from)
    }
}

/// Trials of a node and what is in it.
#[cycle(trials)]
fn push_node(
    alloc: Global,
    trials: &mut Vec<Trial>,
    sample: &Sample,
    node: &Node,
    begins_loop: bool,
) -> Result<(), NoMemory> {
    match node {
        Node::Segment(slot) => push_segment(alloc, trials, sample, node, slot, begins_loop),
        Node::Loop(_, inner) => {
            if let Some(found) = uses_of(sample, node) {
                push_few(alloc, trials, node, &found)?;
                push_often(alloc, trials, node, &found)?;
            }
            push_nodes(alloc, trials, sample, inner, true)
        }
    }
}

/// Trials of nodes, in their order; those of a loop, or those of the guide itself.
#[cycle(trials)]
pub(crate) fn push_nodes(
    alloc: Global,
    trials: &mut Vec<Trial>,
    sample: &Sample,
    nodes: &[Node],
    of_loop: bool,
) -> Result<(), NoMemory> {
    let mut begins_loop = of_loop;
    for node in nodes {
        push_node(alloc, trials, sample, node, begins_loop)?;
        begins_loop = false;
    }
    Ok(())
}

/// Trials of the node with a number among nodes and what is in them.
pub(crate) fn push_numbered(
    alloc: Global,
    trials: &mut Vec<Trial>,
    sample: &Sample,
    nodes: &[Node],
    number: u32,
    of_loop: bool,
) -> Result<(), NoMemory> {
    let mut begins_loop = of_loop;
    for node in nodes {
        if node.number() == number {
            push_node(alloc, trials, sample, node, begins_loop)?;
        } else if let Node::Loop(_, inner) = node {
            push_numbered(alloc, trials, sample, inner, number, true)?;
        }
        begins_loop = false;
    }
    Ok(())
}
