ghost use Rattle.std.specs.Prelude.{IfOk, IsTrue};
ghost use Rattle.std.specs.Bool.{OnTrue};
ghost use Rattle.guide_tree.specs.Words.{guide_of};
ghost use Rattle.set_walk.specs.Depends.{AreRulesKept};
ghost use Rattle.set_walk.specs.Kept.{AreNamesKept};
ghost use Rattle.set_walk.specs.WalkedSet.{IsWithoutRules};

use crate::depends::are_dependencies_kept;
use crate::hierarchy::is_hierarchy_kept;
use crate::kept::Kept;
use guide_tree::GuideRows;
use hub_kinds::NoMemory;
use std::alloc::Global;
use x12_bytes::Delims;

/// Whether surely nothing is wrong with a set by its guide's rule of hierarchies and its dependencies, by what was kept of its segments.
pub(crate) fn are_rules_kept(
    alloc: Global,
    rows: &GuideRows,
    delims: Delims,
    kept: &Kept,
) -> Result<bool, NoMemory>
    ensures kept { IfOk result (λ whole. OnTrue whole (AreNamesKept kept.now → AreRulesKept (guide_of rows.now) delims kept.now)) }
    ensures without { IfOk result (λ whole. IsWithoutRules (guide_of rows.now) → IsTrue whole) }
{
    if !are_dependencies_kept(delims, rows.depends.as_slice(), kept.labelled.as_slice()) {
        return Ok(false);
    }
    let (names, hls) = (kept.names.as_slice(), kept.hls.as_slice());
    is_hierarchy_kept(alloc, &rows.hl, delims, names, hls)
}
