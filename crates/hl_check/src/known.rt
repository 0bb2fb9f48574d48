ghost use Rattle.std.specs.Prelude.{◌≡◌, ◌++◌, [], ◌∷◌, List, OnOk, option_map};
ghost use Rattle.x12_bytes.specs.declared.delims.Delims.{Delims};
ghost use Rattle.guide_tree.specs.Words.{Segment};
ghost use Rattle.hl_check.specs.Hierarchy.{first_numbered, hierarchical_id_of, parent_id_of, level_of, is_named};
ghost use Rattle.hl_check.specs.Known.{KnowsLevels, KnowsNamed};

use crate::rules::is_filled;
use hub_kinds::NoMemory;
use std::collections::{BTreeMap, BTreeSet};
use x12_bytes::Delims;

/// The level of the first HL with a number.
pub(crate) fn level_with<'a>(
    levels: &BTreeMap<&'a [u8], &'a [u8]>,
    number: &[u8],
) -> Option<&'a [u8]>
    ensures { (hls : List Segment) → KnowsLevels levels.now hls
        → option_map (λ l. l.now) result ≡ option_map level_of (first_numbered number.now hls) }
{
    levels.get(number).copied()
}

/// Adds an HL's number and level, unless an earlier one has the number.
pub(crate) fn add_level<'a>(
    levels: &mut BTreeMap<&'a [u8], &'a [u8]>,
    number: &'a [u8],
    level: &'a [u8],
) -> Result<(), NoMemory>
    ensures { OnOk result ((hls : List Segment) (h : Segment) → hierarchical_id_of h ≡ number.entry.now → level_of h ≡ level.entry.now
        → KnowsLevels levels.old hls → KnowsLevels levels.new (hls ++ h ∷ [])) }
{
    if levels.get(number).is_none() {
        levels.insert(number, level)?;
    }
    Ok(())
}

/// Adds the number that an HL02 is; an empty one is none.
pub(crate) fn add_named<'a>(
    named: &mut BTreeSet<&'a [u8]>,
    delims: Delims,
    parent: &'a [u8],
) -> Result<(), NoMemory>
    ensures { OnOk result ((hls : List Segment) (h : Segment) → parent_id_of h ≡ parent.entry.now
        → KnowsNamed named.old delims hls → KnowsNamed named.new delims (h ∷ hls)) }
{
    if is_filled(delims, parent) {
        named.insert(parent)?;
    }
    Ok(())
}
