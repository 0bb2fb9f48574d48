ghost use Rattle.std.specs.Prelude.{◌≡◌, ◌↔◌, ◌⊎◌, IfOk, OnOk};
ghost use Rattle.std.specs.List.{Contains, list_any};
ghost use Rattle.x12_segs.specs.Words.{elements_of};
ghost use Rattle.guide_tree.specs.Words.{element_at, nodes_view};
ghost use Rattle.hub_kinds.specs.declared.fault.Fault.{Fault};
ghost use Rattle.hub_kinds.specs.Words.{contains_text};
ghost use Rattle.loop_match.specs.Viewed.{placed_view, placed_views};
ghost use Rattle.depend_check.specs.Dependencies.{is_trigger, is_dependency_triggered, IsBroken};
ghost use Rattle.depend_check.specs.Uses.{IsFound, IsFoundBy};

use crate::asked::add_left_out;
use crate::uses::{add_uses, is_use};
use guide_tree::{Dependency, Node};
use hub_kinds::{Faults, NoMemory};
use loop_match::{PlacedSeg, text_at};
use std::alloc::Global;
use x12_bytes::Delims;

fn is_trigger(dependency: &Dependency, placed: &PlacedSeg) -> bool
    ensures { result ≡ is_trigger dependency.now (placed_view placed.now) }
{
    is_use(dependency.slot.as_slice(), placed) && has_code(dependency, placed)
}

fn has_code(dependency: &Dependency, placed: &PlacedSeg) -> bool
    ensures { result ≡ contains_text dependency.now.codes (element_at (elements_of placed.now.seg.now) dependency.now.at) }
{
    dependency
        .codes
        .contains(text_at(placed.seg, dependency.at as usize))
}

fn has_trigger(dependency: &Dependency, placed: &[PlacedSeg]) -> bool
    ensures { result ≡ list_any (λ one. is_trigger dependency.now (placed_view one)) placed.now }
{
    placed.iter().any(|one| is_trigger(dependency, one))
}

fn is_triggered(dependency: &Dependency, placed: &[PlacedSeg]) -> bool
    ensures { result ≡ is_dependency_triggered dependency.now (placed_views placed.now) }
{
    has_trigger(dependency, placed)
}

/// Adds what is wrong by a dependency that is triggered, in any order of the segments.
fn add_broken_by<'a>(
    faults: &mut Faults<'a>,
    nodes: &'a [Node],
    delims: Delims,
    end: u64,
    placed: &[PlacedSeg<'_, 'a, 'a>],
    dependency: &Dependency,
) -> Result<(), NoMemory>
    ensures { OnOk result ((f : Fault) → Contains faults.new f ↔ (Contains faults.old f
        ⊎ IsBroken (nodes_view nodes.now) delims end (placed_views placed.now) dependency.now f)) }
{
    add_left_out(faults, nodes, end, placed, dependency)?;
    add_uses(faults, delims, dependency, placed)
}

/// Adds the faults of a dependency that may not be triggered.
fn add_found<'a>(
    faults: &mut Faults<'a>,
    nodes: &'a [Node],
    delims: Delims,
    end: u64,
    placed: &[PlacedSeg<'_, 'a, 'a>],
    dependency: &Dependency,
) -> Result<(), NoMemory>
    ensures { OnOk result ((f : Fault) → Contains faults.new f ↔ (Contains faults.old f
        ⊎ IsFoundBy (nodes_view nodes.now) delims end (placed_views placed.now) dependency.now f)) }
{
    if !is_triggered(dependency, placed) {
        return Ok(());
    }
    add_broken_by(faults, nodes, delims, end, placed, dependency)
}

/// What is wrong by dependencies, each of which looks at all segments: for so few that no order pays.
pub(crate) fn find_few<'a>(
    alloc: Global,
    nodes: &'a [Node],
    delims: Delims,
    end: u64,
    placed: &[PlacedSeg<'_, 'a, 'a>],
    depends: &[Dependency],
) -> Result<Faults<'a>, NoMemory>
    ensures { IfOk result (λ v. (f : Fault) → Contains v f
        ↔ IsFound (nodes_view nodes.now) delims end (placed_views placed.now) depends.now f) }
{
    let mut faults = Faults::new(alloc);
    for i in 0..depends.len() {
        let dependency = &depends[i];
        add_found(&mut faults, nodes, delims, end, placed, dependency)?;
    }
    Ok(faults)
}
