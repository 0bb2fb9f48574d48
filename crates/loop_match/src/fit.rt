ghost use Rattle.std.specs.Prelude.{◌≡◌, false};
ghost use Rattle.std.specs.Bool.{OnTrue};
ghost use Rattle.std.specs.Str.{bytes_eq};
ghost use Rattle.std.specs.List.{list_all};
ghost use Rattle.x12_segs.specs.Words.{elements_of};
ghost use Rattle.hub_kinds.specs.Words.{contains_text};
ghost use Rattle.guide_tree.specs.Words.{element_at, fits};

use guide_tree::{Pick, Slot};
use x12_segs::SegView;

/// The element with a number, or at 0 the id (X12.6, segment); empty where it isn't there.
pub fn text_at<'a>(seg: &SegView<'a>, k: usize) -> &'a [u8]
    ensures { result.now ≡ element_at (elements_of seg.now) k }
{
    if k == 0 { seg.id() } else { seg.element(k) }
}

fn is_picked(pick: &Pick, seg: &SegView) -> bool
    ensures { result ≡ contains_text pick.now.codes (element_at (elements_of seg.now) pick.now.position) }
{
    pick.codes.contains(text_at(seg, pick.position as usize))
}

fn are_picked(picks: &[Pick], seg: &SegView) -> bool
    ensures { result ≡ list_all (λ p. contains_text p.codes (element_at (elements_of seg.now) p.position)) picks.now }
{
    picks.iter().all(|pick| is_picked(pick, seg))
}

/// Whether a segment surely has another id: most are distinguished by their first byte.
fn begins_otherwise(id: &[u8], seg: &SegView) -> bool
    ensures { OnTrue result (bytes_eq id.now (element_at (elements_of seg.now) 0) ≡ false) }
{
    let Some(own) = id.first() else {
        return false;
    };
    let Some(byte) = seg.bytes().first() else {
        return false;
    };
    *own != *byte
}

fn has_id(id: &[u8], seg: &SegView) -> bool
    ensures { result ≡ bytes_eq id.now (element_at (elements_of seg.now) 0) }
{
    if begins_otherwise(id, seg) {
        return false;
    }
    id == seg.id()
}

/// Whether the segment fits the slot.
pub fn fits(slot: &Slot, seg: &SegView) -> bool
    ensures { result ≡ fits slot.now (elements_of seg.now) }
{
    has_id(slot.id.as_slice(), seg) && are_picked(slot.picks.as_slice(), seg)
}
