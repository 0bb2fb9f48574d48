ghost use Rattle.std.specs.Prelude.{◌≡◌, ◌++◌, [], IfOk, OnOk};
ghost use Rattle.guide_tree.specs.Words.{nodes_view, view};
ghost use Rattle.guide_page.specs.Nodes as order;

use crate::elements::append_range_cell;
use crate::named::append_slot_name;
use crate::tags::{
    append_cell, append_fixed, append_row_end, append_row_head, append_small, append_table_end,
    append_tagged,
};
use crate::words::use_words;
use guide_names::Names;
use guide_tree::{Loop, Node, Slot};
use hub_kinds::NoMemory;
use std::alloc::Global;

/// The path of a node with an id, after `above`.
pub(crate) fn path_of(alloc: Global, above: &[u8], id: &[u8]) -> Result<Vec<u8>, NoMemory>
    ensures { IfOk result (λ path. path.items ≡ order.path_of above.now id.now) }
{
    let mut path = Vec::from_slice(alloc, above)?;
    path.extend_from_slice(id)?;
    Ok(path)
}

/// What the paths in a loop with an id begin with, after `above`.
pub(crate) fn path_in(alloc: Global, above: &[u8], id: &[u8]) -> Result<Vec<u8>, NoMemory>
    ensures { IfOk result (λ path. path.items ≡ order.path_in above.now id.now) }
{
    let mut path = path_of(alloc, above, id)?;
    path.extend_from_slice(b"/")?;
    Ok(path)
}

fn append_use_cell(alloc: Global, out: &mut Vec<u8>, least: u32, most: u32) -> Result<(), NoMemory>
    ensures { OnOk result (out.new.items ≡ out.old.items ++ order.use_cell least most) }
{
    append_cell(alloc, out, use_words(least, most))
}

fn append_loop_row(
    alloc: Global,
    out: &mut Vec<u8>,
    path: &[u8],
    head: &Loop,
) -> Result<(), NoMemory>
    ensures { OnOk result (out.new.items ≡ out.old.items ++ order.loop_row path.now head.now) }
{
    append_row_head(alloc, out, path)?;
    append_fixed(out, b"<td>loop</td>")?;
    append_use_cell(alloc, out, head.min, head.max)?;
    append_range_cell(alloc, out, head.min, head.max)?;
    append_row_end(out)
}

fn append_link(
    alloc: Global,
    out: &mut Vec<u8>,
    names: &Names,
    path: &[u8],
    slot: &Slot,
) -> Result<(), NoMemory>
    ensures { OnOk result (out.new.items ≡ out.old.items ++ order.link_part names.now path.now slot.now) }
{
    append_fixed(out, b"<tr><th scope=\"row\"><a href=\"#s")?;
    append_small(out, slot.number)?;
    append_tagged(alloc, out, b"\">", path, b"</a>")?;
    append_slot_name(alloc, out, names, slot)?;
    append_fixed(out, b"</th>")
}

fn append_slot_row(
    alloc: Global,
    out: &mut Vec<u8>,
    names: &Names,
    path: &[u8],
    slot: &Slot,
) -> Result<(), NoMemory>
    ensures { OnOk result (out.new.items ≡ out.old.items ++ order.slot_row names.now path.now slot.now) }
{
    append_link(alloc, out, names, path, slot)?;
    append_fixed(out, b"<td>segment</td>")?;
    append_use_cell(alloc, out, slot.min, slot.max)?;
    append_range_cell(alloc, out, slot.min, slot.max)?;
    append_row_end(out)
}

fn append_slot(
    alloc: Global,
    out: &mut Vec<u8>,
    names: &Names,
    above: &[u8],
    slot: &Slot,
) -> Result<(), NoMemory>
    ensures { OnOk result (out.new.items ≡ out.old.items ++ order.slot_row names.now (order.path_of above.now slot.now.id) slot.now) }
{
    let path = path_of(alloc, above, slot.id.as_slice())?;
    append_slot_row(alloc, out, names, path.as_slice(), slot)
}

fn append_loop(alloc: Global, out: &mut Vec<u8>, above: &[u8], head: &Loop) -> Result<(), NoMemory>
    ensures { OnOk result (out.new.items ≡ out.old.items ++ order.loop_row (order.path_of above.now head.now.id) head.now) }
{
    let path = path_of(alloc, above, head.id.as_slice())?;
    append_loop_row(alloc, out, path.as_slice(), head)
}

/// Appends the rows of a node and of what is in it.
#[cycle(order)]
fn append_node(
    alloc: Global,
    out: &mut Vec<u8>,
    names: &Names,
    above: &[u8],
    node: &Node,
) -> Result<(), NoMemory>
    ensures { OnOk result (out.new.items ≡ out.old.items ++ order.order_rows names.now above.now (view node.now)) }
{
    match node {
        Node::Segment(slot) => append_slot(alloc, out, names, above, slot),
        Node::Loop(head, inner) => {
            append_loop(alloc, out, above, head)?;
            let inside = path_in(alloc, above, head.id.as_slice())?;
            append_nodes(alloc, out, names, inside.as_slice(), inner)
        }
    }
}

/// Appends the rows of nodes and of what is in them.
#[cycle(order)]
fn append_nodes(
    alloc: Global,
    out: &mut Vec<u8>,
    names: &Names,
    above: &[u8],
    nodes: &[Node],
) -> Result<(), NoMemory>
    ensures { OnOk result (out.new.items ≡ out.old.items ++ order.all_order_rows names.now above.now (nodes_view nodes.now)) }
{
    for node in nodes {
        append_node(alloc, out, names, above, node)?;
    }
    Ok(())
}

fn append_order_head(out: &mut Vec<u8>) -> Result<(), NoMemory>
    ensures { OnOk result (out.new.items ≡ out.old.items ++ order.order_head) }
{
    append_fixed(
        out,
        b"<h2>Segments in their order</h2>\n<table>\n<thead><tr><th scope=\"col\">Segment</th><th scope=\"col\">Kind</th>",
    )?;
    append_fixed(
        out,
        b"<th scope=\"col\">Use</th><th scope=\"col\">Times</th></tr></thead>\n<tbody>\n",
    )
}

/// Appends the table of segments and loops in their order.
pub(crate) fn append_order(
    alloc: Global,
    out: &mut Vec<u8>,
    names: &Names,
    nodes: &[Node],
) -> Result<(), NoMemory>
    ensures { OnOk result (out.new.items ≡ out.old.items ++ order.order_part names.now (nodes_view nodes.now)) }
{
    append_order_head(out)?;
    append_nodes(alloc, out, names, b"", nodes)?;
    append_table_end(out)
}
