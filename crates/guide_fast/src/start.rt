ghost use Rattle.std.specs.Prelude.{◌≡◌, ◌+◌, ◌<◌, ◌^◌, [], option_map, IfSome};
ghost use Rattle.x12_segs.specs.Words.{elements_of};
ghost use Rattle.guide_tree.specs.Fits.{fit_slot};
ghost use Rattle.guide_tree.specs.Words.{fits, fit_start, fit_again, view};
ghost use Rattle.guide_fast.specs.IdNumber.{HasNumber, id_number, begin_number};
ghost use Rattle.guide_fast.specs.FirstPick.{HasValue, begin_pick};
ghost use Rattle.loop_match.specs.Steps.{below_start, started, step_view, turned};

use crate::first_pick::{Asked, FirstPick, may_pick};
use guide_tree::{Node, Slot};
use loop_match::{Start, Step, Turn, fits, start_of};
use x12_segs::SegView;

/// Whether a segment fits a slot that has an id of the same number. An id of one to three bytes is the segment's own then, and needs no
/// look.
#[inline]
pub(crate) fn fits_with(slot: &Slot, number: u32, seg: &SegView) -> bool
    requires segment { HasNumber (elements_of seg.now) number }
    requires slot { number ≡ id_number slot.now.id }
    ensures { result ≡ fits slot.now (elements_of seg.now) }
{
    if number != 0 && slot.picks.as_slice().is_empty() {
        return true;
    }
    fits(slot, seg)
}

/// Where a node with this first slot begins, if the segment fits it.
#[inline]
fn start_at<'g>(into_loop: bool, slot: &'g Slot, number: u32, seg: &SegView) -> Option<Start<'g>>
    requires segment { HasNumber (elements_of seg.now) number }
    requires slot { number ≡ id_number slot.now.id }
    ensures { option_map started result ≡ fit_slot (elements_of seg.now) (below_start into_loop) slot.entry.now }
{
    if fits_with(slot, number, seg) {
        Some(Start { into_loop, slot })
    } else {
        None
    }
}

/// The start of a node whose first id has the same number as the segment's, if the segment fits it.
#[inline]
pub(crate) fn start_with<'g>(node: &'g Node, number: u32, seg: &SegView) -> Option<Start<'g>>
    requires segment { HasNumber (elements_of seg.now) number }
    requires node { number ≡ begin_number node.now }
    ensures { option_map started result ≡ fit_start (elements_of seg.now) (view node.entry.now) }
{
    match node {
        Node::Segment(slot) => start_at(false, slot, number, seg),
        Node::Loop(_, nodes) => match nodes.first() {
            Some(Node::Segment(slot)) => start_at(true, slot, number, seg),
            _ => None,
        },
    }
}

/// The start of a node whose first id has a number of its own, if the segment fits it.
#[inline]
pub(crate) fn start_here<'g>(
    node: &'g Node,
    own: u32,
    number: u32,
    seg: &SegView,
) -> Option<Start<'g>>
    requires segment { HasNumber (elements_of seg.now) number }
    requires node { own ≡ begin_number node.now }
    ensures { option_map started result ≡ fit_start (elements_of seg.now) (view node.entry.now) }
{
    if own != number {
        return None;
    }
    start_with(node, number, seg)
}

/// The start of a node, where by the first pick of its first slot a segment that it surely doesn't pick is passed over.
#[inline]
pub(crate) fn start_picked<'g>(
    node: &'g Node,
    own: u32,
    pick: FirstPick,
    number: u32,
    asked: &mut Asked,
    seg: &SegView,
) -> Option<Start<'g>>
    requires segment { HasNumber (elements_of seg.now) number }
    requires node { own ≡ begin_number node.now }
    requires pick { pick ≡ begin_pick node.now }
    requires asked { HasValue (elements_of seg.now) asked.old }
    ensures asked { HasValue (elements_of seg.now) asked.new }
    ensures start { option_map started result ≡ fit_start (elements_of seg.now) (view node.entry.now) }
{
    if number != own {
        return None;
    }
    if !may_pick(pick, asked, seg) {
        return None;
    }
    start_with(node, number, seg)
}

/// The start of a node, where nothing is known of the numbers of ids.
pub(crate) fn start_asked<'g>(
    node: &'g Node,
    pick: FirstPick,
    asked: &mut Asked,
    seg: &SegView,
) -> Option<Start<'g>>
    requires pick { pick ≡ begin_pick node.now }
    requires asked { HasValue (elements_of seg.now) asked.old }
    ensures asked { HasValue (elements_of seg.now) asked.new }
    ensures start { option_map started result ≡ fit_start (elements_of seg.now) (view node.entry.now) }
{
    if !may_pick(pick, asked, seg) {
        return None;
    }
    start_of(node, seg)
}

/// The turn to a node's next use, if the segment fits its start; none of a loop's first node.
#[inline]
pub(crate) fn again_here<'g>(
    node: &'g Node,
    own: u32,
    in_loop: bool,
    step: Step,
    number: u32,
    seg: &SegView,
) -> Option<Turn<'g>>
    requires segment { HasNumber (elements_of seg.now) number }
    requires node { own ≡ begin_number node.now }
    requires room { step.use_no + 1 < 2 ^ 64 }
    ensures turn { option_map (turned []) result ≡ fit_again (elements_of seg.now) in_loop (step_view step) (view node.entry.now) }
    ensures depth { IfSome result (λ t. t.depth ≡ 0) }
    ensures uses { IfSome result (λ t. t.use_no ≡ step.use_no + 1) }
{
    if in_loop && step.child == 0 {
        return None;
    }
    match start_here(node, own, number, seg) {
        None => None,
        Some(start) => Some(Turn {
            depth: 0,
            child: step.child,
            use_no: step.use_no + 1,
            into_loop: start.into_loop,
            slot: start.slot,
        }),
    }
}
