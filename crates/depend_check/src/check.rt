ghost use Rattle.std.specs.Prelude.{◌≡◌, ◌↔◌, ◌+◌, ◌++◌, length, map, IfOk, OnOk};
ghost use Rattle.std.specs.List.{All, Contains};
ghost use Rattle.x12_bytes.specs.declared.delims.Delims.{Delims};
ghost use Rattle.x12_segs.specs.Words.{elements_of};
ghost use Rattle.hub_kinds.specs.declared.fault.Fault.{Fault};
ghost use Rattle.hub_kinds.specs.Words.{AreRising};
ghost use Rattle.guide_tree.specs.Words.{IsAccepted, guide_of, nodes_view};
ghost use Rattle.loop_match.specs.Given.{place_in};
ghost use Rattle.loop_match.specs.PlacedSegments.{placed_segments};
ghost use Rattle.depend_check.specs.Dependencies.{IsDependencyFault};
ghost use Rattle.depend_check.specs.Uses.{IsFound};

use crate::asked::find_faults;
use crate::few::find_few;
use crate::groups::{keep_labelled, sort_by_label};
use guide_tree::{Dependency, Guide, GuideRows, Node};
use hub_kinds::{Faults, NoMemory};
use loop_match::{Placing, placed_segments};
use std::alloc::Global;
use x12_bytes::Delims;
use x12_segs::SegView;

/// How many dependencies each look at all segments: sorting these would cost more.
const FEW: usize = 4;

/// What is wrong by these dependencies with a body whose segments have these places.
fn find_in_body<'a>(
    alloc: Global,
    segs: &[SegView<'a>],
    placing: &Placing,
    nodes: &'a [Node],
    delims: Delims,
    depends: &[Dependency],
) -> Result<Faults<'a>, NoMemory>
    ensures { IfOk result (λ v. (f : Fault) → Contains v f ↔ IsFound (nodes_view nodes.now) delims (length segs.now + 2)
        (placed_segments (nodes_view nodes.now) (map elements_of segs.now) (map place_in placing.now.given)) depends.now f) }
{
    let mut placed = placed_segments(alloc, segs, placing, nodes)?;
    let end = segs.len() as u64 + 2;
    if depends.len() <= FEW {
        return find_few(alloc, nodes, delims, end, placed.as_slice(), depends);
    }
    keep_labelled(&mut placed);
    sort_by_label(&mut placed);
    find_faults(alloc, nodes, delims, end, placed.as_slice(), depends)
}

/// The faults of the dependencies of accepted rows, in their order.
fn check_by_rows<'a>(
    alloc: Global,
    segs: &[SegView<'a>],
    placing: &Placing,
    rows: &'a GuideRows,
    delims: Delims,
) -> Result<Faults<'a>, NoMemory>
    requires { IsAccepted rows.now }
    ensures faults { IfOk result (λ v. (f : Fault) → Contains v f ↔ IsDependencyFault (guide_of rows.now) delims
        (map elements_of segs.now) (map place_in placing.now.given) (length segs.now + 2) f) }
    ensures rising { IfOk result (λ v. AreRising v) }
{
    let (nodes, depends) = (rows.nodes.as_slice(), rows.depends.as_slice());
    Ok(find_in_body(alloc, segs, placing, nodes, delims, depends)?.in_order())
}

/// Exactly the faults of the dependencies of a guide in a body, under these places of its segments, where all segments
/// are read by the same delimiters; each once and in their order. A position is a segment's number in the set, ST being
/// 1; the end is after the last segment. The only error is out of memory. Dependencies are own; the 999 guide, IK3 and
/// IK4, reports them.
pub fn check_dependencies<'a>(
    alloc: Global,
    segs: &[SegView<'a>],
    placing: &Placing,
    guide: &'a Guide,
) -> Result<Faults<'a>, NoMemory>
    ensures faults { IfOk result (λ v. (delims : Delims) → All (λ s. s.delims ≡ delims) segs.now → (f : Fault)
        → Contains v f ↔ IsDependencyFault (guide_of guide.now) delims (map elements_of segs.now)
        (map place_in placing.now.given) (length segs.now + 2) f) }
    ensures rising { IfOk result (λ v. AreRising v) }
{
    let rows = guide.rows();
    if rows.depends.as_slice().is_empty() {
        return Ok(Faults::new(alloc));
    }
    match segs.first() {
        None => Ok(Faults::new(alloc)),
        Some(first) => check_by_rows(alloc, segs, placing, rows, first.delims()),
    }
}
