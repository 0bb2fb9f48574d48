ghost use Rattle.std.specs.Prelude.{◌≡◌, length, nat_le};
ghost use Rattle.std.specs.List.{list_any, list_all};
ghost use Rattle.x12_segs.specs.Words.{elements_of};
ghost use Rattle.guide_tree.specs.Words.{element_at};
ghost use Rattle.hub_kinds.specs.Words.{contains_text};
ghost use Rattle.depend_check.specs.Standing.{stands_at, fills, triggers};
ghost use Rattle.set_walk.specs.Kept.{given_in};
ghost use Rattle.set_walk.specs.Depends.{lacks, has, some_in, target_by, kept_by};

use crate::kept::SlottedSeg;
use elem_rules::is_empty;
use guide_tree::{Dependency, DependencyKind};
use loop_match::text_at;
use x12_bytes::Delims;

/// That many dependencies may each look at all segments whose slots have labels.
pub const FEW: usize = 4;

/// Whether there are few dependencies.
pub(crate) fn are_few(depends: &[Dependency]) -> bool
    ensures { result ≡ nat_le (length depends.now) FEW }
{
    depends.len() <= FEW
}

fn stands_at(label: &[u8], one: &SlottedSeg) -> bool
    ensures { result ≡ stands_at label.now (given_in one.now) }
{
    one.slot.has_label(label)
}

fn is_used(label: &[u8], labelled: &[SlottedSeg]) -> bool
    ensures { result ≡ list_any (λ x. stands_at label.now (given_in x)) labelled.now }
{
    labelled.iter().any(|one| stands_at(label, one))
}

fn has_code(dependency: &Dependency, one: &SlottedSeg) -> bool
    ensures { result ≡ contains_text dependency.now.codes (element_at (elements_of one.now.seg) dependency.now.at) }
{
    dependency
        .codes
        .contains(text_at(&one.seg, dependency.at as usize))
}

fn triggers(dependency: &Dependency, one: &SlottedSeg) -> bool
    ensures { result ≡ triggers dependency.now (given_in one.now) }
{
    stands_at(dependency.slot.as_slice(), one) && has_code(dependency, one)
}

fn is_triggered(dependency: &Dependency, labelled: &[SlottedSeg]) -> bool
    ensures { result ≡ list_any (λ x. triggers dependency.now (given_in x)) labelled.now }
{
    labelled.iter().any(|one| triggers(dependency, one))
}

fn fills(delims: Delims, element: u32, one: &SlottedSeg) -> bool
    ensures { result ≡ fills delims element (given_in one.now) }
{
    !is_empty(delims, text_at(&one.seg, element as usize))
}

fn lacks(delims: Delims, label: &[u8], element: u32, one: &SlottedSeg) -> bool
    ensures { result ≡ lacks delims label.now element (given_in one.now) }
{
    stands_at(label, one) && !fills(delims, element, one)
}

fn has(delims: Delims, label: &[u8], element: u32, one: &SlottedSeg) -> bool
    ensures { result ≡ has delims label.now element (given_in one.now) }
{
    stands_at(label, one) && fills(delims, element, one)
}

fn some_lacks(delims: Delims, label: &[u8], element: u32, labelled: &[SlottedSeg]) -> bool
    ensures { result ≡ list_any (λ x. lacks delims label.now element (given_in x)) labelled.now }
{
    labelled
        .iter()
        .any(|one| lacks(delims, label, element, one))
}

fn some_has(delims: Delims, label: &[u8], element: u32, labelled: &[SlottedSeg]) -> bool
    ensures { result ≡ list_any (λ x. has delims label.now element (given_in x)) labelled.now }
{
    labelled.iter().any(|one| has(delims, label, element, one))
}

/// Whether the segments keep what a dependency asks once it is triggered.
fn keeps_target(delims: Delims, dependency: &Dependency, labelled: &[SlottedSeg]) -> bool
    ensures { result ≡ target_by (some_in labelled.now) delims dependency.now.target dependency.now.kind dependency.now.element }
{
    let (label, element) = (dependency.target.as_slice(), dependency.element);
    match dependency.kind {
        DependencyKind::Need if element == 0 => is_used(label, labelled),
        DependencyKind::Need => !some_lacks(delims, label, element, labelled),
        DependencyKind::Ban if element == 0 => !is_used(label, labelled),
        DependencyKind::Ban => !some_has(delims, label, element, labelled),
    }
}

fn keeps(delims: Delims, dependency: &Dependency, labelled: &[SlottedSeg]) -> bool
    ensures { result ≡ kept_by (some_in labelled.now) delims dependency.now }
{
    !is_triggered(dependency, labelled) || keeps_target(delims, dependency, labelled)
}

/// Whether the segments keep each of the dependencies.
pub(crate) fn are_dependencies_kept(
    delims: Delims,
    depends: &[Dependency],
    labelled: &[SlottedSeg],
) -> bool
    ensures { result ≡ list_all (kept_by (some_in labelled.now) delims) depends.now }
{
    depends
        .iter()
        .all(|dependency| keeps(delims, dependency, labelled))
}
