ghost use Rattle.std.specs.Prelude.{◌≡◌, ◌++◌, ◌∷◌, List, OnOk};
ghost use Rattle.hub_kinds.specs.declared.codes.ElementCode.TheVariants.{PatternFailure};
ghost use Rattle.x12_segs.specs.Words.{elements_of};
ghost use Rattle.guide_tree.specs.Words.{Segment};
ghost use Rattle.hl_check.specs.Hierarchy.{is_child_wrong};
ghost use Rattle.hl_check.specs.Found.{fault_if, backward_faults};
ghost use Rattle.loop_match.specs.Viewed.{placed_view, placed_views};
ghost use Rattle.hl_check.specs.Known.{KnowsNamed};

use crate::fault::add_if;
use crate::known::add_named;
use crate::rules::is_child_wrong;
use hub_kinds::{ElementCode, Faults, NoMemory};
use loop_match::PlacedSeg;
use std::alloc::Global;
use std::collections::BTreeSet;
use x12_bytes::Delims;

/// Adds what the later HLs show of an HL, and keeps the number that it names.
fn add_before<'a>(
    faults: &mut Faults<'a>,
    named: &mut BTreeSet<&'a [u8]>,
    delims: Delims,
    hl: &PlacedSeg<'_, 'a, 'a>,
) -> Result<(), NoMemory>
    ensures named { OnOk result ((later : List Segment) → KnowsNamed named.old delims later
        → KnowsNamed named.new delims (elements_of hl.now.seg.now ∷ later)) }
    ensures faults { OnOk result ((later : List Segment) → KnowsNamed named.old delims later → faults.new
        ≡ faults.old ++ fault_if (is_child_wrong delims (elements_of hl.now.seg.now) later) (placed_view hl.now) 4 PatternFailure) }
{
    let (number, parent, _) = hl.seg.first_elements();
    let wrong = is_child_wrong(hl.seg.element(4), named.contains(number));
    add_if(faults, wrong, hl, 4, ElementCode::PatternFailure)?;
    add_named(named, delims, parent)
}

/// Adds what the later HLs show of each, from the last on.
pub(crate) fn add_backward<'a>(
    alloc: Global,
    faults: &mut Faults<'a>,
    delims: Delims,
    hls: &[PlacedSeg<'_, 'a, 'a>],
) -> Result<(), NoMemory>
    ensures { OnOk result (faults.new ≡ faults.old ++ backward_faults delims (placed_views hls.now)) }
{
    let mut named = BTreeSet::new(alloc);
    let mut left = hls.len();
    while left > 0 {
        left -= 1;
        add_before(faults, &mut named, delims, &hls[left])?;
    }
    Ok(())
}
