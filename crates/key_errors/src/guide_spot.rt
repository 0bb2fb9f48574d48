//! The table of a guide file in which a refused key is.
ghost use Rattle.std.specs.Prelude.{◌≡◌, ◌≤◌, IfOk, option_map};
ghost use Rattle.toml.specs.View.{table_view};
ghost use Rattle.key_errors.specs.NodeTables as nodes;
ghost use Rattle.key_errors.specs.Seen.{seen};
ghost use Rattle.key_errors.specs.Spots as spots;

use crate::key_tables::KeyTable;
use crate::node_tables::node_table;
use crate::spot::{RefusedKey, Spot, first_spot};
use crate::spots::head_spots;
use hub_kinds::NoMemory;
use std::alloc::Global;
use toml::Table;

fn node_spot<'t>(alloc: Global, top: &'t Table, number: u32) -> Result<Option<Spot<'t>>, NoMemory>
    requires { 1 ≤ number }
    ensures { IfOk result (λ found. option_map seen found
        ≡ spots.node_spot number (nodes.node_table (table_view top.entry.now) number)) }
{
    match node_table(alloc, top, number) {
        Ok(None) => Ok(None),
        Ok(Some(table)) => Ok(Some(Spot {
            kind: KeyTable::Node,
            number: u64::from(number),
            table,
        })),
        Err(NoMemory) => Err(NoMemory),
    }
}

/// The table of a guide file in which a refused key is, by the number of its node, or 0. The only error is out of memory.
pub(crate) fn guide_spot<'t>(
    alloc: Global,
    number: u32,
    refused: RefusedKey<'_>,
    top: &'t Table,
) -> Result<Option<Spot<'t>>, NoMemory>
    ensures { IfOk result (λ found. option_map seen found
        ≡ spots.guide_spot number refused.entry.why refused.entry.key.now (table_view top.entry.now)) }
{
    if number == 0 {
        let tables = head_spots(alloc, top)?;
        first_spot(alloc, refused, tables.as_slice())
    } else {
        node_spot(alloc, top, number)
    }
}
