ghost use Rattle.std.specs.Prelude.{◌≡◌, ◌++◌, OnOk, IfOk};
ghost use Rattle.guide_tree.specs.Words.{nodes_view};
ghost use Rattle.guide_fast.specs.Tables.{trees_in, lists_of, tables_of};

use crate::children::Children;
use guide_tree::Node;
use hub_kinds::NoMemory;
use std::alloc::Global;

/// Adds a table for each node, parents first.
fn add_tables<'g>(
    alloc: Global,
    tables: &mut Vec<Children<'g>>,
    nodes: &'g [Node],
) -> Result<(), NoMemory>
    ensures { OnOk result (trees_in tables.new.items ≡ trees_in tables.old.items ++ lists_of (nodes_view nodes.entry.now)) }
{
    for node in nodes {
        match node {
            Node::Segment(_) => tables.push(Children::of(alloc, &[])?)?,
            Node::Loop(_, inner) => {
                tables.push(Children::of(alloc, inner)?)?;
                add_tables(alloc, tables, inner)?;
            }
        }
    }
    Ok(())
}

/// The tables of a guide's nodes: at 0 of the nodes themselves, and at each loop's number of its nodes.
pub(crate) fn tables_of<'g>(alloc: Global, nodes: &'g [Node]) -> Result<Vec<Children<'g>>, NoMemory>
    ensures { IfOk result (λ tables. trees_in tables.items ≡ tables_of (nodes_view nodes.entry.now)) }
{
    let mut tables = Vec::new(alloc);
    tables.push(Children::of(alloc, nodes)?)?;
    add_tables(alloc, &mut tables, nodes)?;
    Ok(tables)
}
