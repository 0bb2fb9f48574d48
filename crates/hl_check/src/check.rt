ghost use Rattle.std.specs.Prelude.{◌≡◌, ◌↔◌, length, map, IfOk, Some};
ghost use Rattle.std.specs.Bool.{OnTrue};
ghost use Rattle.std.specs.List.{All, Contains};
ghost use Rattle.x12_bytes.specs.declared.delims.Delims.{Delims};
ghost use Rattle.x12_segs.specs.Words.{elements_of};
ghost use Rattle.hub_kinds.specs.declared.fault.Fault.{Fault};
ghost use Rattle.hub_kinds.specs.Words.{AreRising};
ghost use Rattle.guide_tree.specs.Words.{guide_of, nodes_view};
ghost use Rattle.loop_match.specs.Given.{place_in};
ghost use Rattle.hl_check.specs.Hierarchy.{hls_of, segments_of, IsFaultAmong, IsHierarchyFault, IsHierarchyWhole};
ghost use Rattle.hl_check.specs.Found.{found_faults};
ghost use Rattle.loop_match.specs.Viewed.{placed_views};

use crate::backward::add_backward;
use crate::forward::add_forward;
use crate::hls::hls_of;
use guide_tree::{Guide, HlRule, Node};
use hub_kinds::{Faults, NoMemory};
use loop_match::{PlacedSeg, Placing};
use std::alloc::Global;
use x12_bytes::Delims;
use x12_segs::SegView;

/// The faults of these HLs, as the two walks find them.
fn find_faults<'a>(
    alloc: Global,
    rule: &HlRule,
    delims: Delims,
    hls: &[PlacedSeg<'_, 'a, 'a>],
) -> Result<Faults<'a>, NoMemory>
    ensures { IfOk result (λ v. v ≡ found_faults rule.now delims (placed_views hls.now) (length hls.now)) }
{
    let mut faults = Faults::new(alloc);
    add_forward(alloc, &mut faults, rule, delims, hls)?;
    add_backward(alloc, &mut faults, delims, hls)?;
    Ok(faults)
}

/// Whether nothing is wrong with these HLs by a rule, where a set has no other, and all are read by the delimiters; in a body
/// whose segments all have places there is then no fault of the hierarchy. Positions and loops aren't looked at. The only error is
/// out of memory. X12.6, hierarchical level segment.
pub fn is_hierarchy_whole(
    alloc: Global,
    rule: &HlRule,
    delims: Delims,
    hls: &[PlacedSeg],
) -> Result<bool, NoMemory>
    ensures { IfOk result (λ whole. OnTrue whole (IsHierarchyWhole (Some rule.now) delims (segments_of (placed_views hls.now)))) }
{
    let faults = find_faults(alloc, rule, delims, hls)?;
    Ok(faults.is_empty())
}

/// The faults of the HLs of a body, in their order.
fn check_by_rule<'a>(
    alloc: Global,
    segs: &[SegView<'a>],
    placing: &Placing,
    nodes: &'a [Node],
    rule: &HlRule,
    delims: Delims,
) -> Result<Faults<'a>, NoMemory>
    ensures faults { IfOk result (λ v. (f : Fault) → Contains v f ↔ IsFaultAmong rule.now delims
        (hls_of (nodes_view nodes.now) (map elements_of segs.now) (map place_in placing.now.given)) f) }
    ensures rising { IfOk result (λ v. AreRising v) }
{
    let hls = hls_of(alloc, segs, placing, nodes)?;
    Ok(find_faults(alloc, rule, delims, hls.as_slice())?.in_order())
}

/// Exactly the faults of the hierarchy of a body by the rule of its guide, under these places of its segments, where all
/// segments are read by the same delimiters; each once, by position and element. A position is a segment's number in the
/// set, ST being 1. Where the guide has no rule there is none. The only error is out of memory. X12.6, hierarchical level
/// segment; the 999 guide, IK4.
pub fn check_hl<'a>(
    alloc: Global,
    segs: &[SegView<'a>],
    placing: &Placing,
    guide: &'a Guide,
) -> Result<Faults<'a>, NoMemory>
    ensures faults { IfOk result (λ v. (delims : Delims) → All (λ s. s.delims ≡ delims) segs.now → (f : Fault)
        → Contains v f ↔ IsHierarchyFault (guide_of guide.now) delims (map elements_of segs.now)
        (map place_in placing.now.given) f) }
    ensures rising { IfOk result (λ v. AreRising v) }
{
    let rows = guide.rows();
    match &rows.hl {
        None => Ok(Faults::new(alloc)),
        Some(rule) => match segs.first() {
            None => Ok(Faults::new(alloc)),
            Some(first) => check_by_rule(
                alloc,
                segs,
                placing,
                rows.nodes.as_slice(),
                rule,
                first.delims(),
            ),
        },
    }
}
