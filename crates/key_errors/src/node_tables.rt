ghost use Rattle.std.specs.Prelude.{◌≡◌, ◌≤◌, ◌++◌, IfOk, OnOk, map, option_map, slice_get, ◌-◌};
ghost use Rattle.toml.specs.Data.{items_depth, members_depth};
ghost use Rattle.toml.specs.View.{items_view, table_view, view};
ghost use Rattle.key_errors.specs.NodeTables as nodes;

use hub_kinds::NoMemory;
use std::alloc::Global;
use toml::{Table, Value};
use toml_keys::value_at;

/// The list at `nodes`; an empty one where there is none.
fn inner_of(table: &Table) -> &[Value]
    ensures same { nodes.tables_in (items_view result.now) ≡ nodes.inner_tables (table_view table.entry.now) }
    ensures smaller { items_depth (items_view result.now) ≤ members_depth (table_view table.entry.now) }
{
    match value_at(table, "nodes") {
        None => &[],
        Some(value) => match value.as_array() {
            None => &[],
            Some(values) => values.as_slice(),
        },
    }
}

/// Adds the table of a node, where it is one, and those of what is in it.
#[cycle(push_nodes)]
fn push_node<'t>(tables: &mut Vec<&'t Table>, value: &'t Value) -> Result<(), NoMemory>
    ensures { OnOk result (map (λ t. table_view t.now) tables.new.items
        ≡ map (λ t. table_view t.now) tables.old.items ++ nodes.tables_of (view value.entry.now)) }
{
    match value.as_table() {
        None => Ok(()),
        Some(table) => {
            tables.push(table)?;
            push_nodes(tables, inner_of(table))
        }
    }
}

/// Adds the tables of nodes and of what is in them, a loop before what is in it.
#[cycle(push_nodes)]
fn push_nodes<'t>(tables: &mut Vec<&'t Table>, values: &'t [Value]) -> Result<(), NoMemory>
    ensures { OnOk result (map (λ t. table_view t.now) tables.new.items
        ≡ map (λ t. table_view t.now) tables.old.items ++ nodes.tables_in (items_view values.entry.now)) }
{
    for value in values {
        push_node(tables, value)?;
    }
    Ok(())
}

/// The tables of all nodes, in the order of their numbers. The only error is out of memory.
pub(crate) fn node_tables<'t>(alloc: Global, top: &'t Table) -> Result<Vec<&'t Table>, NoMemory>
    ensures { IfOk result (λ tables. map (λ t. table_view t.now) tables.items ≡ nodes.inner_tables (table_view top.entry.now)) }
{
    let mut tables = Vec::new(alloc);
    push_nodes(&mut tables, inner_of(top))?;
    Ok(tables)
}

/// The table of the node with a number, from 1 on. The only error is out of memory.
pub(crate) fn node_table<'t>(
    alloc: Global,
    top: &'t Table,
    number: u32,
) -> Result<Option<&'t Table>, NoMemory>
    requires { 1 ≤ number }
    ensures { IfOk result (λ found. option_map (λ t. table_view t.now) found ≡ nodes.node_table (table_view top.entry.now) number) }
{
    let tables = node_tables(alloc, top)?;
    Ok(tables.get(number as usize - 1).copied())
}
