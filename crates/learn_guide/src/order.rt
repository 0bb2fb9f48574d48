//! One order of the places under a loop that each set follows.
use crate::cause::Follows;
use crate::tree::Tree;
use hub_kinds::NoMemory;
use std::alloc::Global;
use std::collections::{BTreeMap, BinaryHeap};

/// The places under a loop in one order, or orders that go round.
pub(crate) enum Ordered<'a> {
    Order(Vec<usize>),
    Round(Vec<Follows<'a>>),
}

/// A place whose turn has come, by what is first in the heap: the one that was seen first.
fn turn(place: usize) -> usize {
    usize::MAX - place
}

/// Takes one step less to each place that follows this one, and adds those whose turn has come.
fn release(tree: &mut Tree, ready: &mut BinaryHeap<usize>, place: usize) -> Result<(), NoMemory> {
    let count = match tree.places.get(place) {
        None => 0,
        Some(found) => found.steps.len(),
    };
    for k in 0..count {
        let to = match tree.places.get(place) {
            Some(found) if k < found.steps.len() => found.steps[k].to,
            _ => place,
        };
        let mut is_ready = false;
        if let Some(next) = tree.places.get_mut(to) {
            next.waits = next.waits.saturating_sub(1);
            is_ready = next.waits == 0;
        }
        if is_ready {
            ready.push(turn(to))?;
        }
    }
    Ok(())
}

/// The places under a loop that wait for none.
fn first_ready(
    alloc: Global,
    tree: &Tree,
    children: &[usize],
) -> Result<BinaryHeap<usize>, NoMemory> {
    let mut ready = BinaryHeap::new(alloc);
    for child in children {
        if let Some(place) = tree.places.get(*child)
            && place.waits == 0
        {
            ready.push(turn(*child))?;
        }
    }
    Ok(ready)
}

/// The places under a loop in one order: after those that come before it in some set, and otherwise as they were seen first.
pub(crate) fn order_of<'a>(
    alloc: Global,
    tree: &mut Tree<'a>,
    children: &[usize],
) -> Result<Ordered<'a>, NoMemory> {
    let mut ready = first_ready(alloc, tree, children)?;
    let mut order = Vec::new(alloc);
    for _ in 0..children.len() {
        if let Some(next) = ready.pop() {
            let place = turn(next);
            order.push(place)?;
            release(tree, &mut ready, place)?;
        }
    }
    if order.len() == children.len() {
        return Ok(Ordered::Order(order));
    }
    Ok(Ordered::Round(round_of(alloc, tree, children)?))
}

/// For each place that still waits, one that still waits before it, and the set that has it so.
fn waiting<'a>(
    alloc: Global,
    tree: &Tree<'a>,
    children: &[usize],
) -> Result<BTreeMap<usize, (usize, usize)>, NoMemory> {
    let mut before = BTreeMap::new(alloc);
    for child in children {
        if let Some(place) = tree.places.get(*child)
            && place.waits > 0
        {
            for step in place.steps.as_slice() {
                let _old = before.insert(step.to, (*child, step.sample))?;
            }
        }
    }
    Ok(before)
}

fn id_of<'a>(tree: &Tree<'a>, place: usize) -> &'a [u8] {
    match tree.places.get(place) {
        None => b"",
        Some(found) => found.key.id,
    }
}

/// A place that waits, from which going back long enough leads into a round.
fn in_round(before: &BTreeMap<usize, (usize, usize)>, children: &[usize]) -> usize {
    let mut at = 0;
    for child in children {
        if before.contains_key(child) {
            at = *child;
        }
    }
    for _ in 0..children.len() {
        if let Some((earlier, _)) = before.get(&at) {
            at = *earlier;
        }
    }
    at
}

/// Orders that go round.
fn round_of<'a>(
    alloc: Global,
    tree: &Tree<'a>,
    children: &[usize],
) -> Result<Vec<Follows<'a>>, NoMemory> {
    let before = waiting(alloc, tree, children)?;
    let first = in_round(&before, children);
    let mut round = Vec::new(alloc);
    let mut at = first;
    for _ in 0..children.len() {
        if let Some((earlier, sample)) = before.get(&at) {
            round.push(Follows {
                before: id_of(tree, *earlier),
                after: id_of(tree, at),
                sample: *sample,
            })?;
            at = *earlier;
        }
        if at == first {
            return Ok(round);
        }
    }
    Ok(round)
}
