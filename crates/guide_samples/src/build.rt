//! The segments of a sample, in the order of the guide's nodes.
use crate::plan::Plan;
use crate::presence::{bit, chosen, has, needed, next};
use crate::values::{Spot, element_text};
use guide_tree::{DependencyKind, Node, Slot};
use hub_kinds::NoMemory;
use std::alloc::Global;

/// How many segments a sample has at most; a guide that asks for more has none.
const MOST_PIECES: usize = 50_000;

/// A segment of a sample: its slot, and its elements.
#[derive(Drop)]
pub(crate) struct Piece<'g> {
    pub slot: &'g Slot,
    pub texts: Vec<Vec<u8>>,
}

/// Texts, each copied.
pub(crate) fn copy_texts(alloc: Global, texts: &[Vec<u8>]) -> Result<Vec<Vec<u8>>, NoMemory> {
    let mut copies = Vec::new(alloc);
    for text in texts {
        copies.push(Vec::from_slice(alloc, text.as_slice())?)?;
    }
    Ok(copies)
}

pub(crate) fn copy_piece<'g>(alloc: Global, piece: &Piece<'g>) -> Result<Piece<'g>, NoMemory> {
    Ok(Piece {
        slot: piece.slot,
        texts: copy_texts(alloc, piece.texts.as_slice())?,
    })
}

/// The values that the elements of a slot have where they are there; empty for one that has none.
pub(crate) fn texts_of(
    alloc: Global,
    plan: &Plan,
    slot: &Slot,
    full: bool,
) -> Result<Vec<Vec<u8>>, NoMemory> {
    let mut texts = Vec::new(alloc);
    let mut position = 0;
    for element in slot.elements.as_slice() {
        position = next(position);
        let spot = Spot {
            rows: plan.rows,
            slot,
            position,
        };
        texts.push(element_text(alloc, &spot, element, full)?)?;
    }
    Ok(texts)
}

/// The elements that have values.
pub(crate) fn filled(texts: &[Vec<u8>]) -> u64 {
    let mut bits = 0;
    let mut position = 0;
    for text in texts {
        position = next(position);
        if !text.is_empty() {
            bits |= bit(position);
        }
    }
    bits
}

/// The texts of the elements that are there; all others are empty.
pub(crate) fn only_present(
    alloc: Global,
    texts: &[Vec<u8>],
    present: u64,
) -> Result<Vec<Vec<u8>>, NoMemory> {
    let mut kept = Vec::new(alloc);
    let mut position = 0;
    for text in texts {
        position = next(position);
        let shown: &[u8] = if has(present, position) {
            text.as_slice()
        } else {
            b""
        };
        kept.push(Vec::from_slice(alloc, shown)?)?;
    }
    Ok(kept)
}

/// A segment of a slot; none if none is known that meets the slot.
pub(crate) fn piece_of<'g>(
    alloc: Global,
    plan: &Plan<'g>,
    slot: &'g Slot,
) -> Result<Option<Piece<'g>>, NoMemory> {
    let texts = texts_of(alloc, plan, slot, plan.full)?;
    let can = filled(texts.as_slice()) & !plan.forced_elements(DependencyKind::Ban, slot.number);
    let must = needed(slot) | plan.forced_elements(DependencyKind::Need, slot.number);
    let Some(present) = chosen(slot.conditions.as_slice(), must, can, plan.full) else {
        return Ok(None);
    };
    Ok(Some(Piece {
        slot,
        texts: only_present(alloc, texts.as_slice(), present)?,
    }))
}

/// The least and the greatest number of uses of a node.
pub(crate) fn uses(node: &Node) -> (u32, u32) {
    match node {
        Node::Segment(slot) => (slot.min, slot.max),
        Node::Loop(head, _) => (head.min, head.max),
    }
}

/// The greatest number of a slot in a node.
pub(crate) fn last_number(node: &Node) -> u32 {
    match node {
        Node::Segment(slot) => slot.number,
        Node::Loop(head, inner) => {
            let mut last = head.number;
            for child in inner {
                last = last_number(child);
            }
            last
        }
    }
}

/// Whether a sample has uses of a node.
fn is_wanted(plan: &Plan, node: &Node) -> bool {
    let (least, most) = uses(node);
    let first = node.number();
    let last = last_number(node);
    let is_banned = plan.forces(DependencyKind::Ban, first, first);
    let is_needed = plan.forces(DependencyKind::Need, first, last);
    most >= 1 && (least >= 1 || ((plan.full || is_needed) && !is_banned))
}

/// Adds uses of a segment: as many as it must have, and at least one.
fn add_segments<'g>(
    alloc: Global,
    plan: &Plan<'g>,
    pieces: &mut Vec<Piece<'g>>,
    slot: &'g Slot,
) -> Result<bool, NoMemory> {
    let Some(piece) = piece_of(alloc, plan, slot)? else {
        return Ok(false);
    };
    for _ in 1..slot.min {
        if pieces.len() >= MOST_PIECES {
            return Ok(false);
        }
        pieces.push(copy_piece(alloc, &piece)?)?;
    }
    pieces.push(piece)?;
    Ok(pieces.len() <= MOST_PIECES)
}

/// Adds uses of a node: as many as it must have, and at least one. Gives whether they are known; if not, nothing is added.
#[cycle(build)]
fn add_node<'g>(
    alloc: Global,
    plan: &Plan<'g>,
    pieces: &mut Vec<Piece<'g>>,
    node: &'g Node,
) -> Result<bool, NoMemory> {
    let before = pieces.len();
    let is_known = match node {
        Node::Segment(slot) => add_segments(alloc, plan, pieces, slot)?,
        Node::Loop(head, inner) => add_loop(alloc, plan, pieces, head.min.max(1), inner)?,
    };
    if !is_known {
        pieces.truncate(before);
    }
    Ok(is_known)
}

/// Adds that many uses of a loop, each with the same segments.
#[cycle(build)]
fn add_loop<'g>(
    alloc: Global,
    plan: &Plan<'g>,
    pieces: &mut Vec<Piece<'g>>,
    count: u32,
    inner: &'g [Node],
) -> Result<bool, NoMemory> {
    let before = pieces.len();
    if !add_nodes(alloc, plan, pieces, inner)? {
        return Ok(false);
    }
    let after = pieces.len();
    for _ in 1..count {
        if !repeat(alloc, pieces, before, after)? {
            return Ok(false);
        }
    }
    Ok(true)
}

/// Adds copies of the pieces with an index from `from` to before `to`.
pub(crate) fn repeat(
    alloc: Global,
    pieces: &mut Vec<Piece>,
    from: usize,
    to: usize,
) -> Result<bool, NoMemory> {
    for k in from..to {
        if pieces.len() >= MOST_PIECES {
            return Ok(false);
        }
        let Some(piece) = pieces.get(k) else {
            return Ok(false);
        };
        let copy = copy_piece(alloc, piece)?;
        pieces.push(copy)?;
    }
    Ok(true)
}

/// Adds uses of each node that the sample has. Gives whether those that it must have are known.
#[cycle(build)]
fn add_nodes<'g>(
    alloc: Global,
    plan: &Plan<'g>,
    pieces: &mut Vec<Piece<'g>>,
    nodes: &'g [Node],
) -> Result<bool, NoMemory> {
    for node in nodes {
        if is_wanted(plan, node) && !add_node(alloc, plan, pieces, node)? && uses(node).0 >= 1 {
            return Ok(false);
        }
    }
    Ok(true)
}

/// The segments of a sample, as far as they are known without its hierarchy; none if a needed one isn't.
pub(crate) fn pieces_of<'g>(
    alloc: Global,
    plan: &Plan<'g>,
) -> Result<Option<Vec<Piece<'g>>>, NoMemory> {
    let mut pieces = Vec::new(alloc);
    if add_nodes(alloc, plan, &mut pieces, plan.rows.nodes.as_slice())? {
        Ok(Some(pieces))
    } else {
        Ok(None)
    }
}
