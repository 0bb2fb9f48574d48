//! The text of a proposal: a guide file, with a comment at each line.
use crate::cause::{Follows, append, append_number};
use crate::columns::{Column, columns_of};
use crate::heads::{is_hl, usual_most};
use crate::known::{Known, Spot};
use crate::order::{Ordered, order_of};
use crate::rows::append_row;
use crate::tree::{Place, Tree};
use hub_kinds::NoMemory;
use std::alloc::Global;
use x12_segs::SegView;

/// How often a line may be repeated.
const MOST_LINES: usize = 99_999;
/// How many elements HL has at least in a guide with a hierarchy.
const HL_ELEMENTS: usize = 4;

/// A loop that is being written: its place, its children in their order, and which is next.
#[derive(Drop)]
struct Writing {
    place: usize,
    order: Vec<usize>,
    next: usize,
}

/// What is written of a segment or a loop besides its content.
#[derive(Clone, Copy)]
struct Seen<'a> {
    id: &'a [u8],
    level: &'a [u8],
    is_line: bool,
    uses: usize,
    most: usize,
    /// How many uses its parent has.
    of: usize,
}

impl<'a> Seen<'a> {
    fn new(place: &Place<'a>, of: usize) -> Seen<'a> {
        Seen {
            id: place.key.id,
            level: place.key.level,
            is_line: place.is_line,
            uses: place.uses,
            most: place.most,
            of,
        }
    }

    /// How often it may be there: once if it was never repeated.
    fn max(&self) -> usize {
        if self.is_line {
            MOST_LINES.max(self.most)
        } else if self.most > 1 {
            self.most.max(usual_most(self.id))
        } else {
            1
        }
    }
}

/// Writes the least and the greatest number of uses.
fn append_bounds(out: &mut Vec<u8>, seen: &Seen) -> Result<(), NoMemory> {
    append(out, b", min=")?;
    append_number(out, if seen.uses == seen.of { 1 } else { 0 })?;
    append(out, b", max=")?;
    append_number(out, seen.max())
}

/// Writes how often it was seen, as the begin of a comment.
fn append_seen(out: &mut Vec<u8>, seen: &Seen) -> Result<(), NoMemory> {
    append(out, b" # in ")?;
    append_number(out, seen.uses)?;
    append(out, b" of ")?;
    append_number(out, seen.of)?;
    if seen.most > 1 {
        append(out, b", up to ")?;
        append_number(out, seen.most)?;
        append(out, b" times")?;
    }
    Ok(())
}

fn append_indent(out: &mut Vec<u8>, depth: usize) -> Result<(), NoMemory> {
    for _ in 0..depth {
        out.push(b' ')?;
    }
    Ok(())
}

/// Writes which elements have a type or lengths that are guessed.
fn append_guessed(out: &mut Vec<u8>, guessed: &[usize]) -> Result<(), NoMemory> {
    if guessed.is_empty() {
        return Ok(());
    }
    append(out, b"; guessed:")?;
    for position in guessed {
        append(out, b" ")?;
        append_number(out, *position)?;
    }
    Ok(())
}

/// Writes the elements of a segment, and gives the positions of those that are guessed.
fn append_elements(
    alloc: Global,
    out: &mut Vec<u8>,
    known: &Known,
    id: &[u8],
    columns: &[Column],
    uses: usize,
) -> Result<Vec<usize>, NoMemory> {
    let mut guessed = Vec::new(alloc);
    let width = if is_hl(id) {
        columns.len().max(HL_ELEMENTS)
    } else {
        columns.len()
    };
    for k in 0..width {
        append(
            out,
            if k > 0 {
                b", \"".as_slice()
            } else {
                b"\"".as_slice()
            },
        )?;
        let spot = Spot {
            id,
            element: k + 1,
            component: 0,
        };
        if append_row(alloc, out, &spot, known, columns.get(k), uses)? {
            guessed.push(k + 1)?;
        }
        append(out, b"\"")?;
    }
    Ok(guessed)
}

/// Writes a segment of a guide; `level` is the one by which its loop is picked, if it is.
fn append_segment(
    alloc: Global,
    out: &mut Vec<u8>,
    known: &Known,
    seen: &Seen,
    level: &[u8],
    segments: &[SegView],
) -> Result<(), NoMemory> {
    append(out, b"{seg=\"")?;
    append(out, seen.id)?;
    append(out, b"\"")?;
    append_bounds(out, seen)?;
    if !level.is_empty() {
        append(out, b", pick=[\"3 ")?;
        append(out, level)?;
        append(out, b"\"]")?;
    }
    append(out, b", elements=[")?;
    let columns = columns_of(alloc, segments)?;
    let guessed = append_elements(
        alloc,
        out,
        known,
        seen.id,
        columns.as_slice(),
        segments.len(),
    )?;
    append(out, b"]},")?;
    append_seen(out, seen)?;
    append_guessed(out, guessed.as_slice())?;
    append(out, b"\n")
}

/// Writes the begin of a loop.
fn append_loop(out: &mut Vec<u8>, seen: &Seen) -> Result<(), NoMemory> {
    append(out, b"{loop=\"")?;
    append(out, seen.id)?;
    append(out, seen.level)?;
    append(out, b"\"")?;
    append_bounds(out, seen)?;
    append(out, b", nodes=[")?;
    append_seen(out, seen)?;
    append(out, b"\n")
}

/// How often the loop at a place was begun, and its level.
fn parent_of<'a>(tree: &Tree<'a>, place: usize) -> (usize, &'a [u8]) {
    match tree.places.get(place) {
        None => (0, b"".as_slice()),
        Some(found) => (found.times, found.key.level),
    }
}

/// Writes a segment, or the begin of a loop.
fn append_place(
    alloc: Global,
    out: &mut Vec<u8>,
    known: &Known,
    tree: &Tree,
    parent: usize,
    place: usize,
) -> Result<(), NoMemory> {
    let (times, level) = parent_of(tree, parent);
    let Some(found) = tree.places.get(place) else {
        return Ok(());
    };
    let seen = Seen::new(found, times);
    if found.key.is_loop {
        append_loop(out, &seen)
    } else {
        let picked: &[u8] = if is_hl(seen.id) { level } else { b"" };
        append_segment(alloc, out, known, &seen, picked, found.segments.as_slice())
    }
}

/// The places under a place, as they were seen first.
fn children_of(alloc: Global, tree: &Tree, place: usize) -> Result<Vec<usize>, NoMemory> {
    match tree.places.get(place) {
        None => Ok(Vec::new(alloc)),
        Some(found) => Ok(Vec::from_slice(alloc, found.children.as_slice())?),
    }
}

/// Begins to write what is under a place; gives the orders that go round, if no one order follows all of them.
fn begin<'a>(
    alloc: Global,
    tree: &mut Tree<'a>,
    stack: &mut Vec<Writing>,
    place: usize,
) -> Result<Option<Vec<Follows<'a>>>, NoMemory> {
    let children = children_of(alloc, tree, place)?;
    match order_of(alloc, tree, children.as_slice())? {
        Ordered::Round(round) => Ok(Some(round)),
        Ordered::Order(order) => {
            stack.push(Writing {
                place,
                order,
                next: 0,
            })?;
            Ok(None)
        }
    }
}

/// The place that is written next, with its parent; none if all under the parent is written.
fn next_of(stack: &mut Vec<Writing>) -> Option<(usize, usize)> {
    let top = stack.last_mut()?;
    let place = *top.order.get(top.next)?;
    top.next = top.next.saturating_add(1);
    Some((top.place, place))
}

fn is_loop(tree: &Tree, place: usize) -> bool {
    match tree.places.get(place) {
        None => false,
        Some(found) => found.key.is_loop,
    }
}

/// Writes the nodes of a tree; gives the orders that go round, if no one order follows all of them.
pub(crate) fn append_nodes<'a>(
    alloc: Global,
    out: &mut Vec<u8>,
    known: &Known,
    tree: &mut Tree<'a>,
) -> Result<Option<Vec<Follows<'a>>>, NoMemory> {
    let mut stack = Vec::new(alloc);
    if let Some(round) = begin(alloc, tree, &mut stack, 0)? {
        return Ok(Some(round));
    }
    let steps = tree.places.len().saturating_mul(2);
    for _ in 0..steps {
        match next_of(&mut stack) {
            Some((parent, place)) => {
                append_indent(out, stack.len())?;
                append_place(alloc, out, known, tree, parent, place)?;
                if is_loop(tree, place)
                    && let Some(round) = begin(alloc, tree, &mut stack, place)?
                {
                    return Ok(Some(round));
                }
            }
            None => {
                let _done = stack.pop();
                if !stack.is_empty() {
                    append_indent(out, stack.len())?;
                    append(out, b"]},\n")?;
                }
            }
        }
    }
    Ok(None)
}
