ghost use Rattle.std.specs.Prelude.{◌≡◌, ◌+◌, ◌<◌, ◌^◌, map, option_map, IfOk, OnOk};
ghost use Rattle.x12_segs.specs.Words.{elements_of};
ghost use Rattle.guide_tree.specs.Words.{nodes_view};
ghost use Rattle.loop_match.specs.Given.{place_in};
ghost use Rattle.loop_match.specs.PlacedSegments.{with_placed, placed_by, placed_segments};
ghost use Rattle.loop_match.specs.Steps.{place_view};
ghost use Rattle.loop_match.specs.Viewed.{placed_view, placed_views};

use crate::loop_id::loop_id_of;
use crate::next::Step;
use crate::place::slot_at;
use crate::placing::Placing;
use guide_tree::{Node, Slot};
use hub_kinds::NoMemory;
use std::alloc::Global;
use x12_segs::SegView;

/// A segment that has a place: its position in the set, ST being 1, its slot, and the id of the innermost loop.
#[derive(Clone, Copy)]
pub struct PlacedSeg<'s, 'a, 'g> {
    pub position: u64,
    pub seg: &'s SegView<'a>,
    pub slot: &'g Slot,
    pub loop_id: &'g [u8],
}

/// The segment with an index in the body, if it has a place.
fn placed_by<'s, 'a, 'g>(
    nodes: &'g [Node],
    index: usize,
    seg: &'s SegView<'a>,
    place: Option<&[Step]>,
) -> Option<PlacedSeg<'s, 'a, 'g>>
    requires { index + 2 < 2 ^ 64 }
    ensures { option_map placed_view result ≡ placed_by (nodes_view nodes.entry.now) index (elements_of seg.entry.now)
        (option_map (λ p. place_view p.now) place.entry) }
{
    let place = place?;
    let slot = slot_at(nodes, place)?;
    Some(PlacedSeg {
        position: index as u64 + 2,
        seg,
        slot,
        loop_id: loop_id_of(nodes, place),
    })
}

/// Adds a segment, if there is one.
fn add_some<'s, 'a, 'g>(
    placed: &mut Vec<PlacedSeg<'s, 'a, 'g>>,
    next: Option<PlacedSeg<'s, 'a, 'g>>,
) -> Result<(), NoMemory>
    ensures { OnOk result (placed_views placed.new.items
        ≡ with_placed (placed_views placed.old.items) (option_map placed_view next.entry)) }
{
    if let Some(one) = next {
        placed.push(one)?;
    }
    Ok(())
}

/// The segments of a body that have places which lead to slots of these nodes, in their order (X12.6; 999 guide, IK3). The
/// only error is out of memory.
pub fn placed_segments<'s, 'a, 'g>(
    alloc: Global,
    segs: &'s [SegView<'a>],
    placing: &Placing,
    nodes: &'g [Node],
) -> Result<Vec<PlacedSeg<'s, 'a, 'g>>, NoMemory>
    ensures { IfOk result (λ placed. placed_views placed.items
        ≡ placed_segments (nodes_view nodes.entry.now) (map elements_of segs.entry.now) (map place_in placing.now.given)) }
{
    let mut placed = Vec::new(alloc);
    for i in 0..segs.len() {
        let next = placed_by(nodes, i, &segs[i], placing.place(i));
        add_some(&mut placed, next)?;
    }
    Ok(placed)
}
