//! A table of a file, and the first of which a refusal of a key holds.
ghost use Rattle.std.specs.Prelude.{◌≡◌, IfOk, map, option_map};
ghost use Rattle.key_errors.specs.Seen.{seen};
ghost use Rattle.key_errors.specs.Spots as spots;

use crate::holds::holds;
use crate::key_tables::{KeyFault, KeyTable};
use hub_kinds::NoMemory;
use std::alloc::Global;
use toml::Table;

/// A table of a file.
#[derive(Clone, Copy)]
pub struct Spot<'t> {
    /// What it writes.
    pub kind: KeyTable,
    /// Its number among those at one key, or of a node, from 1 on; 0 of one that is alone.
    pub number: u64,
    pub table: &'t Table,
}

/// A refusal of a key.
#[derive(Clone, Copy)]
pub struct RefusedKey<'k> {
    pub why: KeyFault,
    pub key: &'k str,
}

/// The first of `tables` of which the refusal holds. The only error is out of memory.
pub(crate) fn first_spot<'t>(
    alloc: Global,
    refused: RefusedKey<'_>,
    tables: &[Spot<'t>],
) -> Result<Option<Spot<'t>>, NoMemory>
    ensures { IfOk result (λ found. option_map seen found
        ≡ spots.first_spot refused.entry.why refused.entry.key.now (map seen tables.now)) }
{
    for i in 0..tables.len() {
        let spot = tables[i];
        if holds(alloc, spot.kind, refused.why, refused.key, spot.table)? {
            return Ok(Some(spot));
        }
    }
    Ok(None)
}
