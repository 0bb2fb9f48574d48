ghost use Rattle.std.specs.Prelude.{◌≡◌, ◌++◌, OnOk};
ghost use Rattle.guide_tree.specs.Words.{nodes_view};
ghost use Rattle.guide_warnings.specs.Labels as labels;

use crate::warning::{LabelWarning, Warning};
use guide_tree::{Dependency, Node, Slot};
use hub_kinds::{NoMemory, copy_text};
use std::alloc::Global;

fn is_named(depends: &[Dependency], label: &[u8]) -> bool
    ensures { result ≡ labels.is_named depends.now label.now }
{
    depends.iter().any(|row| row.slot.as_slice() == label || row.target.as_slice() == label)
}

fn push_slot_label(
    alloc: Global,
    found: &mut Vec<Warning>,
    depends: &[Dependency],
    slot: &Slot,
) -> Result<(), NoMemory>
    ensures { OnOk result (found.new.items ≡ found.old.items ++ labels.slot_labels depends.now slot.now slot.now.label) }
{
    let Some(label) = &slot.label else {
        return Ok(());
    };
    if is_named(depends, label.as_slice()) {
        return Ok(());
    }
    found.push(Warning::UnnamedLabel(LabelWarning {
        slot: slot.number,
        id: copy_text(alloc, slot.id.as_slice())?,
        label: copy_text(alloc, label.as_slice())?,
    }))?;
    Ok(())
}

/// Adds the labels of nodes and of what is in them that no dependency names.
pub(crate) fn push_labels(
    alloc: Global,
    found: &mut Vec<Warning>,
    depends: &[Dependency],
    nodes: &[Node],
) -> Result<(), NoMemory>
    ensures { OnOk result (found.new.items ≡ found.old.items ++ labels.nodes_labels depends.now (nodes_view nodes.now)) }
{
    for node in nodes {
        match node {
            Node::Segment(slot) => push_slot_label(alloc, found, depends, slot)?,
            Node::Loop(_, inner) => push_labels(alloc, found, depends, inner)?,
        }
    }
    Ok(())
}
