//! The hierarchy of a sample: its HL segments (X12.6) with their numbers, parents and levels.
use crate::build::{Piece, copy_piece, last_number};
use crate::values::{is_value, picked_codes};
use guide_tree::{Element, HlRule, Node, SimpleRow, Slot};
use hub_kinds::NoMemory;
use itoa::Buffer;
use std::alloc::Global;

/// The slots of a loop by their numbers, and how often the loop may be used.
#[derive(Clone, Copy)]
struct LoopSpan {
    first: u32,
    last: u32,
    most: u32,
}

/// An HL segment: its parent among the HL segments, from 1 on, or 0; and whether it is a parent.
#[derive(Drop)]
struct Level {
    piece: usize,
    parent: usize,
    is_parent: bool,
}

fn is_hl(piece: &Piece) -> bool {
    piece.slot.id.as_slice() == b"HL".as_slice()
}

/// The first HL segment.
fn first_hl(pieces: &[Piece]) -> Option<usize> {
    for k in 0..pieces.len() {
        if is_hl(&pieces[k]) {
            return Some(k);
        }
    }
    None
}

/// Whether an HL segment's level is picked by its slot.
fn picks_level(pieces: &[Piece]) -> bool {
    pieces.iter().any(|piece| is_hl(piece) && picked_codes(piece.slot, 3).is_some())
}

/// The innermost loop that has the slot with a number.
fn loop_around(nodes: &[Node], number: u32) -> Option<LoopSpan> {
    for node in nodes {
        if let Node::Loop(head, inner) = node
            && head.number <= number
            && number <= last_number(node)
        {
            let around = LoopSpan {
                first: head.number,
                last: last_number(node),
                most: head.max,
            };
            return loop_around(inner, number).or(Some(around));
        }
    }
    None
}

/// Where the use of a loop ends that begins with the piece at `from`.
fn end_of_use(pieces: &[Piece], from: usize, around: &LoopSpan) -> usize {
    let Some(first) = pieces.get(from) else {
        return from;
    };
    for k in from..pieces.len() {
        let number = pieces[k].slot.number;
        let is_inside = around.first <= number && number <= around.last;
        if k > from && (!is_inside || number == first.slot.number) {
            return k;
        }
    }
    pieces.len()
}

pub(crate) fn simple_row(slot: &Slot, index: usize) -> Option<&SimpleRow> {
    match slot.elements.as_slice().get(index) {
        Some(Element::Simple(row, _)) => Some(row),
        _ => None,
    }
}

/// Whether a level may be below a parent's level; for a root `parent` is none.
pub(crate) fn is_listed(rule: &HlRule, parent: Option<&[u8]>, level: &[u8]) -> bool {
    for pair in rule.pairs.as_slice() {
        if pair.child.as_slice() == level && is_parent(&pair.parent, parent) {
            return true;
        }
    }
    false
}

fn is_parent(listed: &Option<hub_kinds::Text>, parent: Option<&[u8]>) -> bool {
    match (listed, parent) {
        (None, None) => true,
        (Some(listed), Some(parent)) => listed.as_slice() == parent,
        _ => false,
    }
}

fn is_among(levels: &[&[u8]], level: &[u8]) -> bool {
    for known in levels {
        if *known == level {
            return true;
        }
    }
    false
}

/// The next level below those of a chain: the first that isn't in it.
fn next_level<'g>(rule: &'g HlRule, chain: &[&'g [u8]], row: &SimpleRow) -> Option<&'g [u8]> {
    let parent = chain.last().copied();
    for pair in rule.pairs.as_slice() {
        let level = pair.child.as_slice();
        if is_parent(&pair.parent, parent) && !is_among(chain, level) && is_value(row, level) {
            return Some(level);
        }
    }
    None
}

/// The levels of a chain from a root down, at most `most`.
fn chain_of<'g>(
    alloc: Global,
    rule: &'g HlRule,
    row: &SimpleRow,
    most: usize,
) -> Result<Vec<&'g [u8]>, NoMemory> {
    let mut chain = Vec::new(alloc);
    for _ in 0..most.min(rule.pairs.as_slice().len()) {
        let Some(level) = next_level(rule, chain.as_slice(), row) else {
            return Ok(chain);
        };
        chain.push(level)?;
    }
    Ok(chain)
}

/// Writes a text as the element of a piece with an index, from 0.
fn set_text(alloc: Global, piece: &mut Piece, index: usize, text: &[u8]) -> Result<(), NoMemory> {
    let copy = Vec::from_slice(alloc, text)?;
    if let Some(place) = piece.texts.get_mut(index) {
        *place = copy;
    }
    Ok(())
}

/// Adds copies of some pieces.
fn push_copies<'g>(
    alloc: Global,
    out: &mut Vec<Piece<'g>>,
    pieces: &[Piece<'g>],
) -> Result<(), NoMemory> {
    for piece in pieces {
        out.push(copy_piece(alloc, piece)?)?;
    }
    Ok(())
}

/// Adds a use of a loop that begins with HL, at a level.
fn push_level<'g>(
    alloc: Global,
    out: &mut Vec<Piece<'g>>,
    block: &[Piece<'g>],
    level: &[u8],
) -> Result<(), NoMemory> {
    let at = out.len();
    push_copies(alloc, out, block)?;
    if let Some(piece) = out.get_mut(at) {
        set_text(alloc, piece, 2, level)?;
    }
    Ok(())
}

/// The pieces with the first use of the loop of their HL at each level of a chain, where one slot has all levels.
fn with_chain<'g>(
    alloc: Global,
    rule: &HlRule,
    nodes: &[Node],
    pieces: &[Piece<'g>],
    full: bool,
) -> Result<Option<Vec<Piece<'g>>>, NoMemory> {
    let Some(from) = first_hl(pieces) else {
        return Ok(None);
    };
    let Some(first) = pieces.get(from) else {
        return Ok(None);
    };
    let Some(around) = loop_around(nodes, first.slot.number) else {
        return Ok(None);
    };
    let Some(row) = simple_row(first.slot, 2) else {
        return Ok(None);
    };
    let end = end_of_use(pieces, from, &around)
        .max(from)
        .min(pieces.len());
    let most = if full { around.most as usize } else { 1 };
    let chain = chain_of(alloc, rule, row, most)?;
    let mut out = Vec::new(alloc);
    push_copies(alloc, &mut out, &pieces[..from])?;
    for level in chain.as_slice() {
        push_level(alloc, &mut out, &pieces[from..end], level)?;
    }
    push_copies(alloc, &mut out, &pieces[end..])?;
    Ok(Some(out))
}

/// The level of an HL segment, HL03.
fn level_of<'a>(pieces: &'a [Piece], levels: &[Level], number: usize) -> &'a [u8] {
    let Some(level) = number.checked_sub(1).and_then(|index| levels.get(index)) else {
        return b"";
    };
    match pieces.get(level.piece) {
        None => b"",
        Some(piece) => element_at(piece, 2),
    }
}

/// The element of a piece with an index, from 0; empty where it isn't there.
pub(crate) fn element_at<'a>(piece: &'a Piece, index: usize) -> &'a [u8] {
    match piece.texts.get(index) {
        None => b"",
        Some(text) => text.as_slice(),
    }
}

/// The HL segment, from 1 on, that is the parent of the next one at a level; 0 if none may be.
fn parent_of(rule: &HlRule, pieces: &[Piece], levels: &[Level], level: &[u8]) -> usize {
    let mut parent = levels.len();
    for _ in 0..levels.len() {
        if parent == 0 || is_listed(rule, Some(level_of(pieces, levels, parent)), level) {
            return parent;
        }
        parent = match levels.get(parent.saturating_sub(1)) {
            None => 0,
            Some(above) => above.parent,
        };
    }
    0
}

/// The HL segments with their parents.
fn levels_of(alloc: Global, rule: &HlRule, pieces: &[Piece]) -> Result<Vec<Level>, NoMemory> {
    let mut levels = Vec::new(alloc);
    for k in 0..pieces.len() {
        if is_hl(&pieces[k]) {
            let parent = parent_of(rule, pieces, levels.as_slice(), element_at(&pieces[k], 2));
            if let Some(above) = parent
                .checked_sub(1)
                .and_then(|index| levels.get_mut(index))
            {
                above.is_parent = true;
            }
            levels.push(Level {
                piece: k,
                parent,
                is_parent: false,
            })?;
        }
    }
    Ok(levels)
}

/// Writes HL01, HL02 and HL04 of a piece.
fn write_level(
    alloc: Global,
    piece: &mut Piece,
    number: usize,
    level: &Level,
) -> Result<(), NoMemory> {
    let mut digits = Buffer::new();
    set_text(alloc, piece, 0, digits.format(number).as_bytes())?;
    let parent: &[u8] = if level.parent == 0 {
        b""
    } else {
        digits.format(level.parent).as_bytes()
    };
    set_text(alloc, piece, 1, parent)?;
    let children: &[u8] = if level.is_parent { b"1" } else { b"0" };
    let is_shown = simple_row(piece.slot, 3).is_some_and(|row| is_value(row, children));
    set_text(alloc, piece, 3, if is_shown { children } else { b"" })
}

fn write_levels(alloc: Global, pieces: &mut Vec<Piece>, levels: &[Level]) -> Result<(), NoMemory> {
    for k in 0..levels.len() {
        if let Some(piece) = pieces.get_mut(levels[k].piece) {
            write_level(alloc, piece, k + 1, &levels[k])?;
        }
    }
    Ok(())
}

/// The pieces of a sample with their hierarchy by a guide's rule.
pub(crate) fn with_levels<'g>(
    alloc: Global,
    rule: &HlRule,
    nodes: &[Node],
    pieces: Vec<Piece<'g>>,
    full: bool,
) -> Result<Vec<Piece<'g>>, NoMemory> {
    let mut all = pieces;
    if !picks_level(all.as_slice())
        && let Some(chained) = with_chain(alloc, rule, nodes, all.as_slice(), full)?
    {
        all = chained;
    }
    let levels = levels_of(alloc, rule, all.as_slice())?;
    write_levels(alloc, &mut all, levels.as_slice())?;
    Ok(all)
}
