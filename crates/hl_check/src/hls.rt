ghost use Rattle.std.specs.Prelude.{◌≡◌, map, IfOk};
ghost use Rattle.std.specs.List.{filter};
ghost use Rattle.x12_segs.specs.Words.{elements_of};
ghost use Rattle.guide_tree.specs.Words.{nodes_view};
ghost use Rattle.loop_match.specs.Given.{place_in};
ghost use Rattle.loop_match.specs.Viewed.{placed_views};
ghost use Rattle.hl_check.specs.Hierarchy.{is_hl, hls_of};

use guide_tree::Node;
use hub_kinds::NoMemory;
use loop_match::{PlacedSeg, Placing, placed_segments};
use std::alloc::Global;
use x12_segs::SegView;

fn is_hl(seg: &SegView) -> bool
    ensures { result ≡ is_hl (elements_of seg.now) }
{
    seg.id() == b"HL".as_slice()
}

/// Lets go of what is no HL.
fn keep_hls(placed: &mut Vec<PlacedSeg>)
    ensures { placed_views placed.new.items ≡ filter (λ h. is_hl h.segment) (placed_views placed.old.items) }
{
    placed.retain(|one| is_hl(one.seg));
}

/// The HL segments of a body that have places.
pub(crate) fn hls_of<'s, 'a, 'g>(
    alloc: Global,
    segs: &'s [SegView<'a>],
    placing: &Placing,
    nodes: &'g [Node],
) -> Result<Vec<PlacedSeg<'s, 'a, 'g>>, NoMemory>
    ensures { IfOk result (λ hls. placed_views hls.items
        ≡ hls_of (nodes_view nodes.entry.now) (map elements_of segs.entry.now) (map place_in placing.now.given)) }
{
    let mut placed = placed_segments(alloc, segs, placing, nodes)?;
    keep_hls(&mut placed);
    Ok(placed)
}
