//! What a guide has that a names file may have words for.
ghost use Rattle.std.specs.Prelude.{◌≡◌, ◌++◌, IfOk, OnOk, map};
ghost use Rattle.guide_tree.specs.Words.{guide_of, nodes_view, view};
ghost use Rattle.guide_names.specs.Subjects.{segment_subject};
ghost use Rattle.names_file.specs.GuideSubjects as subjects;

use crate::slot_subjects::push_slot;
use guide_names::segment_subject;
use guide_tree::{GuideRows, Node};
use hub_kinds::{NoMemory, Text};
use std::alloc::Global;

/// Adds what a node has.
#[cycle(walk)]
fn push_node(alloc: Global, found: &mut Vec<Text>, node: &Node) -> Result<(), NoMemory>
    ensures { OnOk result (found.new.items ≡ found.old.items ++ subjects.node_of (view node.now)) }
{
    match node {
        Node::Segment(slot) => push_slot(alloc, found, slot),
        Node::Loop(_, inner) => push_nodes(alloc, found, inner),
    }
}

/// Adds what nodes have.
#[cycle(walk)]
fn push_nodes(alloc: Global, found: &mut Vec<Text>, nodes: &[Node]) -> Result<(), NoMemory>
    ensures { OnOk result (found.new.items ≡ found.old.items ++ subjects.nodes_of (nodes_view nodes.now)) }
{
    for node in nodes {
        push_node(alloc, found, node)?;
    }
    Ok(())
}

fn push_segments(alloc: Global, found: &mut Vec<Text>, ids: &[Text]) -> Result<(), NoMemory>
    ensures { OnOk result (found.new.items ≡ found.old.items ++ map segment_subject ids.now) }
{
    for id in ids {
        found.push(segment_subject(alloc, id.as_slice())?)?;
    }
    Ok(())
}

/// What a guide with these `rows` has.
pub(crate) fn subjects_of(alloc: Global, rows: &GuideRows) -> Result<Vec<Text>, NoMemory>
    ensures { IfOk result (λ found. found.items ≡ subjects.subjects_of (guide_of rows.now)) }
{
    let mut found = Vec::new(alloc);
    push_segments(alloc, &mut found, rows.head.dictionary.as_slice())?;
    push_nodes(alloc, &mut found, rows.nodes.as_slice())?;
    Ok(found)
}
