ghost use Rattle.std.specs.Prelude.{◌≡◌, ◌++◌, ◌+◌, ◌<◌, ◌^◌, ◌∷◌, [], List, length, OnOk};
ghost use Rattle.x12_segs.specs.Words.{elements_of};
ghost use Rattle.guide_tree.specs.Words.{Segment};
ghost use Rattle.hl_check.specs.Found.{faults_behind, forward_faults};
ghost use Rattle.loop_match.specs.Viewed.{placed_view, placed_views};
ghost use Rattle.hl_check.specs.Known.{KnowsLevels};

use crate::fault::add_if;
use crate::known::{add_level, level_with};
use crate::rules::{is_filled, is_level_wrong, is_number_wrong};
use guide_tree::HlRule;
use hub_kinds::{ElementCode, Faults, NoMemory};
use loop_match::PlacedSeg;
use std::alloc::Global;
use std::collections::BTreeMap;
use x12_bytes::Delims;

/// Adds what the earlier HLs show of the number, the parent and the level of an HL, and keeps its own.
fn add_behind<'a>(
    faults: &mut Faults<'a>,
    levels: &mut BTreeMap<&'a [u8], &'a [u8]>,
    rule: &HlRule,
    delims: Delims,
    count: usize,
    hl: &PlacedSeg<'_, 'a, 'a>,
) -> Result<(), NoMemory>
    ensures levels { OnOk result ((earlier : List Segment) → KnowsLevels levels.old earlier
        → KnowsLevels levels.new (earlier ++ elements_of hl.now.seg.now ∷ [])) }
    ensures faults { OnOk result ((earlier : List Segment) → KnowsLevels levels.old earlier → count ≡ length earlier + 1
        → faults.new ≡ faults.old ++ faults_behind rule.now delims earlier (placed_view hl.now)) }
{
    let (number, parent, level) = hl.seg.first_elements();
    let known = level_with(levels, number).is_some();
    let above = level_with(levels, parent);
    let named = is_filled(delims, parent);
    let number_wrong = is_number_wrong(rule, delims, number, known, count);
    let level_wrong = is_level_wrong(rule, named, above, level);
    add_if(faults, number_wrong, hl, 1, ElementCode::PatternFailure)?;
    add_if(
        faults,
        named && above.is_none(),
        hl,
        2,
        ElementCode::PatternFailure,
    )?;
    add_if(faults, level_wrong, hl, 3, ElementCode::CodeNotUsed)?;
    add_level(levels, number, level)
}

/// Adds what the earlier HLs show of each.
pub(crate) fn add_forward<'a>(
    alloc: Global,
    faults: &mut Faults<'a>,
    rule: &HlRule,
    delims: Delims,
    hls: &[PlacedSeg<'_, 'a, 'a>],
) -> Result<(), NoMemory>
    ensures { OnOk result (faults.new
        ≡ faults.old ++ forward_faults rule.now delims (placed_views hls.now) (length hls.now)) }
{
    let mut levels = BTreeMap::new(alloc);
    for i in 0..hls.len() {
        add_behind(faults, &mut levels, rule, delims, i + 1, &hls[i])?;
    }
    Ok(())
}
