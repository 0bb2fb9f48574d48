ghost use Rattle.std.specs.Prelude.{◌≡◌, option_map};
ghost use Rattle.std.specs.Str.{bytes_eq};
ghost use Rattle.x12_segs.specs.Words.{elements_of};
ghost use Rattle.guide_tree.specs.Words.{find_slot, any_slot, fits, stray_code, guide_of, nodes_view};

use crate::fit::fits;
use guide_tree::{Guide, Node, Slot};
use hub_kinds::{SegmentCode, contains_text};
use x12_segs::SegView;

/// The first slot with an id.
fn slot_with_id<'a>(nodes: &'a [Node], id: &[u8]) -> Option<&'a Slot>
    ensures { option_map (λ s. s.now) result ≡ find_slot (λ slot. bytes_eq slot.id id.now) (nodes_view nodes.entry.now) }
{
    for node in nodes {
        let found = match node {
            Node::Segment(slot) => {
                if slot.id.as_slice() == id {
                    Some(slot)
                } else {
                    None
                }
            }
            Node::Loop(_, inner) => slot_with_id(inner, id),
        };
        if found.is_some() {
            return found;
        }
    }
    None
}

/// The first slot that the segment fits.
fn slot_that_fits<'a>(nodes: &'a [Node], seg: &SegView) -> Option<&'a Slot>
    ensures { option_map (λ s. s.now) result ≡ find_slot (λ slot. fits slot (elements_of seg.now)) (nodes_view nodes.entry.now) }
{
    for node in nodes {
        let found = match node {
            Node::Segment(slot) => { if fits(slot, seg) { Some(slot) } else { None } }
            Node::Loop(_, inner) => slot_that_fits(inner, seg),
        };
        if found.is_some() {
            return found;
        }
    }
    None
}

/// Whether some slot has the id.
fn is_id_known(nodes: &[Node], id: &[u8]) -> bool
    ensures { result ≡ any_slot (λ slot. bytes_eq slot.id id.now) (nodes_view nodes.now) }
{
    slot_with_id(nodes, id).is_some()
}

/// Whether the segment fits some slot.
fn fits_somewhere(nodes: &[Node], seg: &SegView) -> bool
    ensures { result ≡ any_slot (λ slot. fits slot (elements_of seg.now)) (nodes_view nodes.now) }
{
    slot_that_fits(nodes, seg).is_some()
}

/// Why a segment has no place.
pub(crate) fn stray_code(guide: &Guide, seg: &SegView) -> SegmentCode
    ensures { result ≡ stray_code (guide_of guide.now) (elements_of seg.now) }
{
    let nodes = guide.rows().nodes.as_slice();
    if is_id_known(nodes, seg.id()) {
        if fits_somewhere(nodes, seg) {
            SegmentCode::OutOfSequence
        } else {
            SegmentCode::UnexpectedSegment
        }
    } else if contains_text(guide.rows().head.dictionary.as_slice(), seg.id()) {
        SegmentCode::NotInSet
    } else {
        SegmentCode::UnrecognizedSegment
    }
}
