ghost use Rattle.std.specs.Prelude.{◌≡◌, ◌++◌, [], OnOk};
ghost use Rattle.guide_tree.specs.Words.{nodes_view, view};
ghost use Rattle.guide_page.specs.Conditions.{condition_item, pick_item};
ghost use Rattle.guide_page.specs.Nodes as order;
ghost use Rattle.guide_page.specs.Tags.{list_part};

use crate::conditions::{append_conditions, append_picks};
use crate::elements::append_elements;
use crate::named::{append_label_note, append_slot_name};
use crate::nodes::{path_in, path_of};
use crate::tags::{append_code, append_fixed, append_small, append_table_end, append_tagged};
use guide_names::Names;
use guide_tree::{Element, Node, Slot};
use hub_kinds::{NoMemory, Text};
use std::alloc::Global;

fn append_section_head(
    alloc: Global,
    out: &mut Vec<u8>,
    names: &Names,
    path: &[u8],
    slot: &Slot,
) -> Result<(), NoMemory>
    ensures { OnOk result (out.new.items ≡ out.old.items ++ order.section_head names.now path.now slot.now) }
{
    append_fixed(out, b"<h3 id=\"s")?;
    append_small(out, slot.number)?;
    append_tagged(alloc, out, b"\">", path, b"")?;
    append_slot_name(alloc, out, names, slot)?;
    append_fixed(out, b"</h3>\n")
}

fn append_named(
    alloc: Global,
    out: &mut Vec<u8>,
    names: &Names,
    label: &[u8],
) -> Result<(), NoMemory>
    ensures { OnOk result (out.new.items ≡ out.old.items ++ order.named_part names.now label.now) }
{
    append_fixed(out, b"<p>Named ")?;
    append_code(alloc, out, label)?;
    append_fixed(out, b"in dependencies.</p>\n")?;
    append_label_note(alloc, out, names, label)
}

fn append_label(
    alloc: Global,
    out: &mut Vec<u8>,
    names: &Names,
    label: &Option<Text>,
) -> Result<(), NoMemory>
    ensures { OnOk result (out.new.items ≡ out.old.items ++ order.label_part names.now label.now) }
{
    match label {
        None => Ok(()),
        Some(label) => append_named(alloc, out, names, label.as_slice()),
    }
}

fn append_element_head(out: &mut Vec<u8>) -> Result<(), NoMemory>
    ensures { OnOk result (out.new.items ≡ out.old.items ++ order.element_head) }
{
    append_fixed(
        out,
        b"<table>\n<thead><tr><th scope=\"col\">Element</th><th scope=\"col\">Number</th><th scope=\"col\">Use</th>",
    )?;
    append_fixed(
        out,
        b"<th scope=\"col\">Type</th><th scope=\"col\">Length</th><th scope=\"col\">Times</th>",
    )?;
    append_fixed(
        out,
        b"<th scope=\"col\">Values</th></tr></thead>\n<tbody>\n",
    )
}

fn append_element_table(
    alloc: Global,
    out: &mut Vec<u8>,
    names: &Names,
    id: &[u8],
    elements: &[Element],
) -> Result<(), NoMemory>
    ensures { OnOk result (out.new.items ≡ out.old.items ++ order.element_table names.now id.now elements.now) }
{
    append_element_head(out)?;
    append_elements(alloc, out, names, id, elements)?;
    append_table_end(out)
}

fn append_slot_elements(
    alloc: Global,
    out: &mut Vec<u8>,
    names: &Names,
    slot: &Slot,
) -> Result<(), NoMemory>
    ensures { OnOk result (out.new.items ≡ out.old.items ++ order.element_table names.now slot.now.id slot.now.elements) }
{
    append_element_table(
        alloc,
        out,
        names,
        slot.id.as_slice(),
        slot.elements.as_slice(),
    )
}

fn append_slot_picks(alloc: Global, out: &mut Vec<u8>, slot: &Slot) -> Result<(), NoMemory>
    ensures { OnOk result (out.new.items ≡ out.old.items ++ list_part (pick_item slot.now.id) slot.now.picks) }
{
    append_picks(alloc, out, slot.id.as_slice(), slot.picks.as_slice())
}

fn append_slot_conditions(alloc: Global, out: &mut Vec<u8>, slot: &Slot) -> Result<(), NoMemory>
    ensures { OnOk result (out.new.items ≡ out.old.items ++ list_part (condition_item slot.now.id) slot.now.conditions) }
{
    append_conditions(alloc, out, slot.id.as_slice(), slot.conditions.as_slice())
}

fn append_rules(alloc: Global, out: &mut Vec<u8>, slot: &Slot) -> Result<(), NoMemory>
    ensures { OnOk result (out.new.items ≡ out.old.items ++ order.rules_part slot.now) }
{
    append_slot_picks(alloc, out, slot)?;
    append_slot_conditions(alloc, out, slot)
}

fn append_section(
    alloc: Global,
    out: &mut Vec<u8>,
    names: &Names,
    path: &[u8],
    slot: &Slot,
) -> Result<(), NoMemory>
    ensures { OnOk result (out.new.items ≡ out.old.items ++ order.section names.now path.now slot.now) }
{
    append_section_head(alloc, out, names, path, slot)?;
    append_label(alloc, out, names, &slot.label)?;
    append_slot_elements(alloc, out, names, slot)?;
    append_rules(alloc, out, slot)
}

fn append_slot(
    alloc: Global,
    out: &mut Vec<u8>,
    names: &Names,
    above: &[u8],
    slot: &Slot,
) -> Result<(), NoMemory>
    ensures { OnOk result (out.new.items ≡ out.old.items ++ order.section names.now (order.path_of above.now slot.now.id) slot.now) }
{
    let path = path_of(alloc, above, slot.id.as_slice())?;
    append_section(alloc, out, names, path.as_slice(), slot)
}

/// Appends the sections of a node's segments.
#[cycle(walk)]
fn append_node(
    alloc: Global,
    out: &mut Vec<u8>,
    names: &Names,
    above: &[u8],
    node: &Node,
) -> Result<(), NoMemory>
    ensures { OnOk result (out.new.items ≡ out.old.items ++ order.sections names.now above.now (view node.now)) }
{
    match node {
        Node::Segment(slot) => append_slot(alloc, out, names, above, slot),
        Node::Loop(head, inner) => {
            let inside = path_in(alloc, above, head.id.as_slice())?;
            append_nodes(alloc, out, names, inside.as_slice(), inner)
        }
    }
}

/// Appends the sections of the segments of nodes.
#[cycle(walk)]
fn append_nodes(
    alloc: Global,
    out: &mut Vec<u8>,
    names: &Names,
    above: &[u8],
    nodes: &[Node],
) -> Result<(), NoMemory>
    ensures { OnOk result (out.new.items ≡ out.old.items ++ order.all_sections names.now above.now (nodes_view nodes.now)) }
{
    for node in nodes {
        append_node(alloc, out, names, above, node)?;
    }
    Ok(())
}

/// Appends a section for each segment.
pub(crate) fn append_sections(
    alloc: Global,
    out: &mut Vec<u8>,
    names: &Names,
    nodes: &[Node],
) -> Result<(), NoMemory>
    ensures { OnOk result (out.new.items ≡ out.old.items ++ order.sections_part names.now (nodes_view nodes.now)) }
{
    append_fixed(out, b"<h2>Each segment</h2>\n")?;
    append_nodes(alloc, out, names, b"", nodes)
}
