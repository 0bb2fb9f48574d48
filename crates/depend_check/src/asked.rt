ghost use Rattle.std.specs.Prelude.{◌≡◌, ◌↔◌, ◌⊎◌, ◌++◌, IfOk, OnOk, IsSomeAnd, IsTrue};
ghost use Rattle.std.specs.List.{Contains};
ghost use Rattle.guide_tree.specs.declared.rows.Dependency.{Dependency};
ghost use Rattle.guide_tree.specs.Words.{nodes_view};
ghost use Rattle.hub_kinds.specs.declared.fault.Fault.{Fault};
ghost use Rattle.loop_match.specs.Viewed.{placed_views};
ghost use Rattle.depend_check.specs.Dependencies.{is_dependency_triggered, IsBroken};
ghost use Rattle.depend_check.specs.Found.{faults_of_slot};
ghost use Rattle.depend_check.specs.Uses.{AreByLabel, HaveSameTarget, IsBrokenAmong, IsFound, lent};

use crate::fault::unused_fault;
use crate::groups::uses_of;
use crate::seat::seat_among;
use crate::triggered::triggered;
use crate::uses::{add_uses, is_left_out};
use guide_tree::{Dependency, DependencyKind, Node};
use hub_kinds::{Faults, NoMemory};
use loop_match::PlacedSeg;
use std::alloc::Global;
use std::cmp::Ordering;
use x12_bytes::Delims;

fn is_ban(kind: DependencyKind) -> bool {
    kind == DependencyKind::Ban
}

fn by_target(a: &Dependency, b: &Dependency) -> Ordering {
    let by_slot = a.target.as_slice().cmp(b.target.as_slice());
    let by_kind = is_ban(a.kind).cmp(&is_ban(b.kind));
    by_slot.then(by_kind).then(a.element.cmp(&b.element))
}

fn has_same_target(a: &Dependency, b: &Dependency) -> bool
    ensures { IsTrue result → HaveSameTarget a.now b.now }
{
    a.element == b.element && a.kind == b.kind && a.target.as_slice() == b.target.as_slice()
}

/// The dependencies that are triggered, in the order of what they ask, so that each thing that is asked is looked at once.
fn in_target_order<'d>(
    alloc: Global,
    placed: &[PlacedSeg],
    depends: &'d [Dependency],
) -> Result<Vec<&'d Dependency>, NoMemory>
    requires { AreByLabel placed.now }
    ensures { IfOk result (λ v. (d : Dependency) → Contains (lent v.items) d
        ↔ (Contains depends.entry.now d × IsTrue (is_dependency_triggered d (placed_views placed.now)))) }
{
    let mut asked = triggered(alloc, placed, depends)?;
    asked.sort_unstable_by(|a, b| by_target(a, b));
    Ok(asked)
}

/// Adds what is reported of a target that is needed and has no use.
pub(crate) fn add_left_out<'a>(
    faults: &mut Faults<'a>,
    nodes: &'a [Node],
    end: u64,
    placed: &[PlacedSeg],
    dependency: &Dependency,
) -> Result<(), NoMemory>
    ensures { OnOk result (faults.new ≡ faults.old ++ faults_of_slot (nodes_view nodes.now) end (placed_views placed.now)
        dependency.now.target dependency.now.kind dependency.now.element) }
{
    if is_left_out(dependency, placed) {
        if let Some(seat) = seat_among(b"", nodes, dependency.target.as_slice()) {
            faults.push(unused_fault(end, &seat))?;
        }
    }
    Ok(())
}

/// Adds what is wrong by a dependency that is triggered.
fn add_broken<'a>(
    faults: &mut Faults<'a>,
    nodes: &'a [Node],
    delims: Delims,
    end: u64,
    placed: &[PlacedSeg<'_, 'a, 'a>],
    dependency: &Dependency,
) -> Result<(), NoMemory>
    requires { AreByLabel placed.now }
    ensures { OnOk result ((f : Fault) → Contains faults.new f ↔ (Contains faults.old f
        ⊎ IsBroken (nodes_view nodes.now) delims end (placed_views placed.now) dependency.now f)) }
{
    let uses = uses_of(dependency.target.as_slice(), placed);
    add_left_out(faults, nodes, end, uses, dependency)?;
    add_uses(faults, delims, dependency, uses)
}

fn asks_again(before: Option<&Dependency>, dependency: &Dependency) -> bool
    ensures { IsTrue result → IsSomeAnd before.entry (λ b. HaveSameTarget b.now dependency.now) }
{
    match before {
        None => false,
        Some(before) => has_same_target(before, dependency),
    }
}

/// What is wrong by dependencies that are triggered; where they are in that order, each thing that they ask is looked at once.
fn find_broken<'a>(
    alloc: Global,
    nodes: &'a [Node],
    delims: Delims,
    end: u64,
    placed: &[PlacedSeg<'_, 'a, 'a>],
    asked: &[&Dependency],
) -> Result<Faults<'a>, NoMemory>
    requires { AreByLabel placed.now }
    ensures { IfOk result (λ v. (f : Fault) → Contains v f
        ↔ IsBrokenAmong (nodes_view nodes.now) delims end (placed_views placed.now) (lent asked.now) f) }
{
    let mut faults = Faults::new(alloc);
    let mut before = None;
    for i in 0..asked.len() {
        let dependency = asked[i];
        if !asks_again(before, dependency) {
            add_broken(&mut faults, nodes, delims, end, placed, dependency)?;
        }
        before = Some(dependency);
    }
    Ok(faults)
}

/// What is wrong by dependencies, where placed segments are in the order of labels.
pub(crate) fn find_faults<'a>(
    alloc: Global,
    nodes: &'a [Node],
    delims: Delims,
    end: u64,
    placed: &[PlacedSeg<'_, 'a, 'a>],
    depends: &[Dependency],
) -> Result<Faults<'a>, NoMemory>
    requires { AreByLabel placed.now }
    ensures { IfOk result (λ v. (f : Fault) → Contains v f
        ↔ IsFound (nodes_view nodes.now) delims end (placed_views placed.now) depends.now f) }
{
    let asked = in_target_order(alloc, placed, depends)?;
    find_broken(alloc, nodes, delims, end, placed, asked.as_slice())
}
