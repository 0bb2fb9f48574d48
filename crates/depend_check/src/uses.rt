ghost use Rattle.std.specs.Prelude.{◌≡◌, ◌++◌, OnOk};
ghost use Rattle.std.specs.List.{list_any, flat_map};
ghost use Rattle.depend_check.specs.Dependencies.{is_use};
ghost use Rattle.depend_check.specs.Found.{is_broken_by, faults_of_use, is_left_out};
ghost use Rattle.loop_match.specs.Viewed.{placed_view, placed_views};

use crate::fault::told_of;
use elem_rules::is_empty;
use guide_tree::{Dependency, DependencyKind};
use hub_kinds::{Faults, NoMemory};
use loop_match::{PlacedSeg, text_at};
use x12_bytes::Delims;

/// Whether a segment is a use of the slot with a label.
pub(crate) fn is_use(label: &[u8], placed: &PlacedSeg) -> bool
    ensures { result ≡ is_use label.now (placed_view placed.now) }
{
    placed.slot.has_label(label)
}

fn has_use(label: &[u8], placed: &[PlacedSeg]) -> bool
    ensures { result ≡ list_any (λ p. is_use label.now (placed_view p)) placed.now }
{
    placed.iter().any(|one| is_use(label, one))
}

/// Whether some segment is a use of the slot with a label.
fn is_used(label: &[u8], placed: &[PlacedSeg]) -> bool
    ensures { result ≡ list_any (is_use label.now) (placed_views placed.now) }
{
    has_use(label, placed)
}

/// Whether the target as a whole is needed, and has no use.
pub(crate) fn is_left_out(dependency: &Dependency, placed: &[PlacedSeg]) -> bool
    ensures { result ≡ is_left_out dependency.now.target dependency.now.kind dependency.now.element (placed_views placed.now) }
{
    match dependency.kind {
        DependencyKind::Need => {
            dependency.element == 0 && !is_used(dependency.target.as_slice(), placed)
        }
        DependencyKind::Ban => false,
    }
}

fn is_broken_by(delims: Delims, kind: DependencyKind, element: u32, placed: &PlacedSeg) -> bool
    ensures { result ≡ is_broken_by delims kind element (placed_view placed.now) }
{
    let is_empty = is_empty(delims, text_at(placed.seg, element as usize));
    match kind {
        DependencyKind::Need => element != 0 && is_empty,
        DependencyKind::Ban => element == 0 || !is_empty,
    }
}

/// Adds what a segment breaks of a dependency that is triggered.
fn add_use<'a>(
    faults: &mut Faults<'a>,
    delims: Delims,
    dependency: &Dependency,
    placed: &PlacedSeg<'_, 'a, 'a>,
) -> Result<(), NoMemory>
    ensures { OnOk result (faults.new
        ≡ faults.old ++ faults_of_use delims dependency.now.target dependency.now.kind dependency.now.element
        (placed_view placed.now)) }
{
    let (kind, element) = (dependency.kind, dependency.element);
    if is_use(dependency.target.as_slice(), placed) && is_broken_by(delims, kind, element, placed) {
        faults.push(told_of(kind, element, placed))?;
    }
    Ok(())
}

/// Adds what the segments break of a dependency that is triggered.
pub(crate) fn add_uses<'a>(
    faults: &mut Faults<'a>,
    delims: Delims,
    dependency: &Dependency,
    placed: &[PlacedSeg<'_, 'a, 'a>],
) -> Result<(), NoMemory>
    ensures { OnOk result (faults.new
        ≡ faults.old ++ flat_map (faults_of_use delims dependency.now.target dependency.now.kind
        dependency.now.element) (placed_views placed.now)) }
{
    for i in 0..placed.len() {
        add_use(faults, delims, dependency, &placed[i])?;
    }
    Ok(())
}
