//! The tables of a file, in the order in which they are read.
ghost use Rattle.std.specs.Prelude.{◌≡◌, ◌++◌, ◌∷◌, [], IfOk, OnOk, map, option_and_then, option_map};
ghost use Rattle.toml.specs.Data.{as_table, get_member};
ghost use Rattle.toml.specs.View.{items_view, table_view};
ghost use Rattle.key_errors.specs.NodeTables.{inner_tables};
ghost use Rattle.key_errors.specs.Seen.{seen};
ghost use Rattle.key_errors.specs.Spots as said;

use crate::key_tables::KeyTable;
use crate::node_tables::node_tables;
use crate::spot::Spot;
use hub_kinds::NoMemory;
use std::alloc::Global;
use toml::{Table, Value};
use toml_keys::value_at;

/// The table at a key of the top table, where there is one.
fn inner_table<'t>(top: &'t Table, inner: &str) -> Option<&'t Table>
    ensures { option_map (λ t. table_view t.now) result
        ≡ option_and_then as_table (get_member inner.now (table_view top.entry.now)) }
{
    match value_at(top, inner) {
        None => None,
        Some(value) => value.as_table(),
    }
}

fn push_one<'t>(
    spots: &mut Vec<Spot<'t>>,
    kind: KeyTable,
    number: u64,
    table: Option<&'t Table>,
) -> Result<(), NoMemory>
    ensures { OnOk result (map seen spots.new.items ≡ map seen spots.old.items
        ++ said.one_spot kind number (option_map (λ t. table_view t.now) table.entry)) }
{
    if let Some(table) = table {
        spots.push(Spot {
            kind,
            number,
            table,
        })?;
    }
    Ok(())
}

fn push_rows_in<'t>(
    spots: &mut Vec<Spot<'t>>,
    kind: KeyTable,
    rows: &'t [Value],
) -> Result<(), NoMemory>
    ensures { OnOk result (map seen spots.new.items ≡ map seen spots.old.items ++ said.row_spots kind 1 (items_view rows.entry.now)) }
{
    for i in 0..rows.len() {
        push_one(spots, kind, i as u64 + 1, rows[i].as_table())?;
    }
    Ok(())
}

/// Adds the rows at a key of the top table.
fn push_rows<'t>(
    spots: &mut Vec<Spot<'t>>,
    kind: KeyTable,
    rows: &str,
    top: &'t Table,
) -> Result<(), NoMemory>
    ensures { OnOk result (map seen spots.new.items ≡ map seen spots.old.items
        ++ said.rows_spots kind rows.now (table_view top.entry.now)) }
{
    match value_at(top, rows) {
        None => Ok(()),
        Some(value) => match value.as_array() {
            None => Ok(()),
            Some(values) => push_rows_in(spots, kind, values),
        },
    }
}

fn push_nodes<'t>(spots: &mut Vec<Spot<'t>>, tables: &[&'t Table]) -> Result<(), NoMemory>
    ensures { OnOk result (map seen spots.new.items ≡ map seen spots.old.items
        ++ said.node_spots 1 (map (λ t. table_view t.now) tables.now)) }
{
    for i in 0..tables.len() {
        spots.push(Spot {
            kind: KeyTable::Node,
            number: i as u64 + 1,
            table: tables[i],
        })?;
    }
    Ok(())
}

/// The tables of a setup file. The only error is out of memory.
pub(crate) fn setup_spots<'t>(alloc: Global, top: &'t Table) -> Result<Vec<Spot<'t>>, NoMemory>
    ensures { IfOk result (λ spots. map seen spots.items ≡ said.setup_spots (table_view top.entry.now)) }
{
    let mut spots = Vec::new(alloc);
    push_one(&mut spots, KeyTable::Setup, 0, Some(top))?;
    push_one(&mut spots, KeyTable::Hub, 0, inner_table(top, "hub"))?;
    push_rows(&mut spots, KeyTable::Partner, "partner", top)?;
    push_rows(&mut spots, KeyTable::Route, "route", top)?;
    Ok(spots)
}

/// All spots of a counters file.
pub(crate) fn counters_spots<'t>(alloc: Global, top: &'t Table) -> Result<Vec<Spot<'t>>, NoMemory>
    ensures { IfOk result (λ spots. map seen spots.items ≡ said.counters_spots (table_view top.entry.now)) }
{
    let mut spots = Vec::new(alloc);
    push_one(&mut spots, KeyTable::Counters, 0, Some(top))?;
    push_rows(&mut spots, KeyTable::Counter, "counter", top)?;
    Ok(spots)
}

/// The tables of a guide file but for its nodes.
pub(crate) fn head_spots<'t>(alloc: Global, top: &'t Table) -> Result<Vec<Spot<'t>>, NoMemory>
    ensures { IfOk result (λ spots. map seen spots.items ≡ said.head_spots (table_view top.entry.now)) }
{
    let mut spots = Vec::new(alloc);
    push_one(&mut spots, KeyTable::Guide, 0, Some(top))?;
    push_one(&mut spots, KeyTable::Hierarchy, 0, inner_table(top, "hl"))?;
    push_rows(&mut spots, KeyTable::Dependency, "depends", top)?;
    Ok(spots)
}

/// All spots of a guide file.
pub(crate) fn guide_spots<'t>(alloc: Global, top: &'t Table) -> Result<Vec<Spot<'t>>, NoMemory>
    ensures { IfOk result (λ spots. map seen spots.items ≡ said.guide_spots (table_view top.entry.now)) }
{
    let nodes = node_tables(alloc, top)?;
    let mut spots = head_spots(alloc, top)?;
    push_nodes(&mut spots, nodes.as_slice())?;
    Ok(spots)
}
