ghost use Rattle.std.specs.Prelude.{◌≡◌, map, IfOk, IsTrue, None};
ghost use Rattle.std.specs.Bool.{OnTrue};
ghost use Rattle.hl_check.specs.Hierarchy.{segments_of, IsHierarchyWhole};
ghost use Rattle.hl_check.specs.Names.{AreNames};
ghost use Rattle.loop_match.specs.Viewed.{placed_views};
ghost use Rattle.set_walk.specs.Kept.{segment_in};

use crate::kept::SlottedSeg;
use guide_tree::HlRule;
use hl_check::{HlNames, is_hierarchy_whole, look_whole};
use hub_kinds::NoMemory;
use loop_match::PlacedSeg;
use std::alloc::Global;
use x12_bytes::Delims;

/// HLs as the check of a hierarchy takes them, which looks neither at their positions nor at their loops.
fn placed_of<'s, 'a, 'g>(
    alloc: Global,
    hls: &'s [SlottedSeg<'a, 'g>],
) -> Result<Vec<PlacedSeg<'s, 'a, 'g>>, NoMemory>
    ensures { IfOk result (λ v. segments_of (placed_views v.items) ≡ map segment_in hls.entry.now) }
{
    let mut placed = Vec::new(alloc);
    for i in 0..hls.len() {
        let one = &hls[i];
        placed.push(PlacedSeg {
            position: 0,
            seg: &one.seg,
            slot: one.slot,
            loop_id: b"",
        })?;
    }
    Ok(placed)
}

/// Whether surely nothing is wrong with the HLs of a set, by their names or else by all of each.
pub(crate) fn is_hierarchy_kept(
    alloc: Global,
    rule: &Option<HlRule>,
    delims: Delims,
    names: &[HlNames],
    hls: &[SlottedSeg],
) -> Result<bool, NoMemory>
    ensures whole { IfOk result (λ whole. OnTrue whole
        (AreNames names.now (map segment_in hls.now) → IsHierarchyWhole rule.now delims (map segment_in hls.now))) }
    ensures without { IfOk result (λ whole. rule.now ≡ None → IsTrue whole) }
{
    match rule {
        None => Ok(true),
        Some(rule) if look_whole(rule, delims, names) => Ok(true),
        Some(rule) => {
            let placed = placed_of(alloc, hls)?;
            is_hierarchy_whole(alloc, rule, delims, placed.as_slice())
        }
    }
}
