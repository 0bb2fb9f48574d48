ghost use Rattle.std.specs.Prelude.{◌≡◌, ◌≤◌, Some, IfOk, length};
ghost use Rattle.std.specs.List.{All};
ghost use Rattle.guide_tree.specs.Words.{guide_of};
ghost use Rattle.hub_kinds.specs.Words.{AreRising};
ghost use Rattle.set_check.specs.Placed.{IsPlacedBy};
ghost use Rattle.set_check.specs.SetParts.{before_trailer, inner_of, parts_of};
ghost use Rattle.set_check.specs.SetFaults.{AreSetFaults};

use crate::elements::element_faults;
use crate::rules::{rule_faults, with_others};
use guide_fast::{FastGuide, place_all_fast};
use guide_tree::Guide;
use hub_kinds::{Faults, NoMemory};
use loop_match::{Placing, place_all};
use std::alloc::Global;
use x12_segs::{SegView, SetSpan};

/// How many segments come before the SE, or in all where there is none.
fn before_trailer(closed: bool, count: usize) -> usize
    requires { 1 ≤ count }
    ensures { result ≡ before_trailer closed count }
{
    if closed { count - 1 } else { count }
}

/// The segments between ST and SE.
fn inner_of<'s, 'a>(closed: bool, segs: &'s [SegView<'a>]) -> &'s [SegView<'a>]
    requires some { 1 ≤ length segs.now }
    requires room { 1 ≤ before_trailer closed (length segs.now) }
    ensures { result.now ≡ inner_of closed segs.entry.now }
{
    &segs[1..before_trailer(closed, segs.len())]
}

/// The faults of the segments of a set by its guide, in their order, each once.
pub(crate) fn body_faults<'a>(
    alloc: Global,
    set: &SetSpan,
    segs: &[SegView<'a>],
    guide: &'a Guide,
) -> Result<Faults<'a>, NoMemory>
    requires some { 1 ≤ length segs.now }
    requires room { 1 ≤ before_trailer set.now.closed (length segs.now) }
    requires read { All (λ s. s.delims ≡ set.now.delims) segs.now }
    ensures exact { IfOk result (λ v.
        AreSetFaults (Some (guide_of guide.now)) (parts_of set.now.delims set.now.closed segs.now) v) }
    ensures rising { IfOk result (λ v. AreRising v) }
{
    let placing = place_all(alloc, inner_of(set.closed, segs), guide)?;
    placed_faults(alloc, set, segs, placing, guide)
}

/// The faults of a body by its compiled guide.
pub(crate) fn body_faults_fast<'a, 'g: 'a>(
    alloc: Global,
    set: &SetSpan,
    segs: &[SegView<'a>],
    fast: &FastGuide<'g>,
) -> Result<Faults<'a>, NoMemory>
    requires some { 1 ≤ length segs.now }
    requires room { 1 ≤ before_trailer set.now.closed (length segs.now) }
    requires read { All (λ s. s.delims ≡ set.now.delims) segs.now }
    ensures exact { IfOk result (λ v.
        AreSetFaults (Some (guide_of fast.now)) (parts_of set.now.delims set.now.closed segs.now) v) }
    ensures rising { IfOk result (λ v. AreRising v) }
{
    let placing = place_all_fast(alloc, inner_of(set.closed, segs), fast)?;
    placed_faults(alloc, set, segs, placing, fast.guide())
}

/// The faults of segments that have their places.
fn placed_faults<'a>(
    alloc: Global,
    set: &SetSpan,
    segs: &[SegView<'a>],
    placing: Placing<'a>,
    guide: &'a Guide,
) -> Result<Faults<'a>, NoMemory>
    requires some { 1 ≤ length segs.now }
    requires room { 1 ≤ before_trailer set.now.closed (length segs.now) }
    requires read { All (λ s. s.delims ≡ set.now.delims) segs.now }
    requires placed { IsPlacedBy guide.now (inner_of set.now.closed segs.now) placing }
    ensures exact { IfOk result (λ v.
        AreSetFaults (Some (guide_of guide.now)) (parts_of set.now.delims set.now.closed segs.now) v) }
    ensures rising { IfOk result (λ v. AreRising v) }
{
    let body = inner_of(set.closed, segs);
    let errors = element_faults(alloc, body, &placing, guide)?;
    let others = rule_faults(alloc, body, &placing, guide)?;
    let mut faults = with_others(alloc, errors, others)?;
    faults.append(placing.into_faults())?;
    Ok(faults.in_order())
}
