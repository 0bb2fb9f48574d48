ghost use Rattle.std.specs.Prelude.{◌≡◌, IfOk};
ghost use Rattle.x12_segs.specs.Words.{elements_of};
ghost use Rattle.guide_tree.specs.Words.{element_at};
ghost use Rattle.guide_fast.specs.IdNumber.{id_number, HasNumber};
ghost use Rattle.guide_fast.specs.FirstPick.{code_number, slot_pick, begin_pick, begin_picks, may_pick, HasValue};

use crate::id_number::id_number;
use guide_tree::{Node, Slot};
use hub_kinds::{NoMemory, Text};
use loop_match::text_at;
use std::alloc::Global;
use x12_segs::SegView;

/// The first pick of a slot: the position of its element, and the number of the code that this must be. Where the pick lists several
/// codes, or one that has no number, or there is none, the number is 0.
#[derive(Clone, Copy, Drop)]
pub(crate) struct FirstPick {
    pub(crate) position: u32,
    pub(crate) value: u32,
}

/// The number of the element of a segment that was asked for last.
#[derive(Clone, Copy, Drop)]
pub(crate) struct Asked {
    pub(crate) position: u32,
    pub(crate) value: u32,
}

fn code_number(codes: &[Text]) -> u32
    ensures { result ≡ code_number codes.now }
{
    match codes {
        [code] => id_number(code.as_slice()),
        _ => 0,
    }
}

/// The first pick of a slot.
pub(crate) fn slot_pick(slot: &Slot) -> FirstPick
    ensures { result ≡ slot_pick slot.now }
{
    match slot.picks.as_slice() {
        [pick, ..] => FirstPick {
            position: pick.position,
            value: code_number(pick.codes.as_slice()),
        },
        [] => FirstPick {
            position: 0,
            value: 0,
        },
    }
}

/// The first pick of the slot that a node begins with.
fn begin_pick(node: &Node) -> FirstPick
    ensures { result ≡ begin_pick node.now }
{
    match node {
        Node::Segment(slot) => slot_pick(slot),
        Node::Loop(_, nodes) => match nodes.first() {
            Some(Node::Segment(slot)) => slot_pick(slot),
            _ => FirstPick {
                position: 0,
                value: 0,
            },
        },
    }
}

/// The first picks of the slots that nodes begin with.
pub(crate) fn begin_picks(alloc: Global, nodes: &[Node]) -> Result<Vec<FirstPick>, NoMemory>
    ensures { IfOk result (λ picks. picks.items ≡ begin_picks nodes.now) }
{
    let mut picks = Vec::new(alloc);
    for k in 0..nodes.len() {
        picks.push(begin_pick(&nodes[k]))?;
    }
    Ok(picks)
}

/// Nothing was asked for yet but the id.
pub(crate) fn asked_id(number: u32, seg: &SegView) -> Asked
    requires { HasNumber (elements_of seg.now) number }
    ensures { HasValue (elements_of seg.now) result }
{
    let _segment = seg;
    Asked {
        position: 0,
        value: number,
    }
}

/// The number of the element at a position. Where it was asked for last, it isn't looked for again.
#[inline]
fn value_at(asked: &mut Asked, position: u32, seg: &SegView) -> u32
    requires { HasValue (elements_of seg.now) asked.old }
    ensures asked { HasValue (elements_of seg.now) asked.new }
    ensures value { result ≡ id_number (element_at (elements_of seg.now) position) }
{
    if asked.position == position {
        return asked.value;
    }
    let value = id_number(text_at(seg, position as usize));
    *asked = Asked { position, value };
    value
}

/// Whether a segment may have the code of a first pick.
#[inline]
pub(crate) fn may_pick(pick: FirstPick, asked: &mut Asked, seg: &SegView) -> bool
    requires { HasValue (elements_of seg.now) asked.old }
    ensures asked { HasValue (elements_of seg.now) asked.new }
    ensures value { result ≡ may_pick (elements_of seg.now) pick }
{
    if pick.value == 0 {
        return true;
    }
    pick.value == value_at(asked, pick.position, seg)
}
