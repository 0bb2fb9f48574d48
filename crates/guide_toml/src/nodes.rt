ghost use Rattle.std.specs.Prelude.{◌≡◌, ◌≤◌, ℕ, option_map, ◌++◌, ◌∷◌, [], IfOk, OnOk, IfErr};
ghost use Rattle.toml.specs.Data.{table as table_data, items_depth, members_depth};
ghost use Rattle.toml.specs.View.{table_view, view, items_view};
ghost use Rattle.guide_tree.specs.Words.{view as tree_view, nodes_view, count_in, node_count};
ghost use Rattle.guide_toml.specs.Answers.{Gives, GivesAt, meaning_of};
ghost use Rattle.guide_toml.specs.Refused.{at_slot, number_after};
ghost use Rattle.toml_keys.specs.Meanings.{FailsAs};
ghost use Rattle.toml_keys.specs.Tables as tables;
ghost use Rattle.guide_toml.specs.Guides as guides;

use crate::fault::GuideFileFault;
use crate::keys::TableKind;
use crate::table::{
    count_at, entries_at, refuse_unlisted, some_entries_at, some_word_at, text_at, word_at,
};
use guide_tree::{Loop, Node, Slot};
use std::alloc::Global;
use toml::{Table, Value};
use toml_keys::{tables_at, value_at};

#[tactic(auto, unfolding(crate::specs::Guides::segment_of))]
fn segment_of(alloc: Global, table: &Table) -> Result<Slot, GuideFileFault>
    ensures { Gives (λ x. x) result (guides.segment_of (table_view table.now)) }
{
    let id = text_at(alloc, table, "seg")?;
    let min = count_at(alloc, table, "min")?;
    let max = count_at(alloc, table, "max")?;
    let label = some_word_at(alloc, table, "label", 1, 20)?;
    let picks = some_entries_at(alloc, table, "pick")?;
    let elements = entries_at(alloc, table, "elements")?;
    let conditions = some_entries_at(alloc, table, "conditions")?;
    Ok(Slot {
        number: 0,
        id,
        label,
        min,
        max,
        picks,
        elements,
        conditions,
    })
}

#[tactic(auto, unfolding(crate::specs::Guides::loop_of))]
fn loop_of(alloc: Global, table: &Table) -> Result<Loop, GuideFileFault>
    ensures { Gives (λ x. x) result (guides.loop_of (table_view table.now)) }
{
    let id = word_at(alloc, table, "loop", 1, 4)?;
    let min = count_at(alloc, table, "min")?;
    let max = count_at(alloc, table, "max")?;
    let _nodes = tables_at(table, "nodes")?;
    Ok(Loop {
        number: 0,
        id,
        min,
        max,
    })
}

fn has(table: &Table, key: &str) -> bool
    ensures { result ≡ guides.has key.now (table_view table.now) }
{
    value_at(table, key).is_some()
}

/// Which kind of node a table writes: by `seg` or by `loop`, and not by both.
#[derive(Clone, Copy)]
enum NodeKind {
    Segment,
    Loop,
    Unclear,
}

fn node_kind(table: &Table) -> NodeKind
    ensures { result ≡ guides.node_kind (table_view table.now) }
{
    if has(table, "seg") {
        if has(table, "loop") {
            NodeKind::Unclear
        } else {
            NodeKind::Segment
        }
    } else if has(table, "loop") {
        NodeKind::Loop
    } else {
        NodeKind::Unclear
    }
}

/// The list at `nodes`; an empty one where there is none.
fn inner_of(table: &Table) -> &[Value]
    ensures same { (first : ℕ) → guides.nodes_in first (items_view result.now) ≡ guides.inner_nodes first (table_view table.entry.now) }
    ensures smaller { items_depth (items_view result.now) ≤ members_depth (table_view table.entry.now) }
{
    match value_at(table, "nodes") {
        None => &[],
        Some(value) => match value.as_array() {
            None => &[],
            Some(values) => values.as_slice(),
        },
    }
}

fn segment_node(alloc: Global, table: &Table) -> Result<Node, GuideFileFault>
    ensures read { Gives tree_view result (guides.segment_node (table_view table.now)) }
    ensures one { IfOk result (λ node. count_in (tree_view node) ≡ 1) }
{
    refuse_unlisted(alloc, table, TableKind::Segment)?;
    Ok(Node::Segment(segment_of(alloc, table)?))
}

/// A segment, or what is wrong with it in the node of a number.
#[tactic(auto, using(crate::proofs::Placing::fails_at))]
fn segment_at(alloc: Global, table: &Table, slot: u32) -> Result<Node, GuideFileFault>
    ensures read { GivesAt tree_view result (at_slot slot (guides.segment_node (table_view table.now))) }
    ensures one { IfOk result (λ node. count_in (tree_view node) ≡ 1) }
{
    match segment_node(alloc, table) {
        Ok(node) => Ok(node),
        Err(fault) => Err(fault.at(slot)),
    }
}

fn known_loop(alloc: Global, table: &Table) -> Result<Loop, GuideFileFault>
    ensures { Gives (λ x. x) result (guides.known_keys TableKind.Loop (table_view table.now) (guides.loop_of (table_view table.now))) }
{
    refuse_unlisted(alloc, table, TableKind::Loop)?;
    loop_of(alloc, table)
}

/// What is wrong with a node of which it isn't clear what it is.
fn unclear_fault(alloc: Global, table: &Table) -> GuideFileFault
    ensures { FailsAs (meaning_of result) (guides.unclear_node (table_view table.now)) }
{
    match refuse_unlisted(alloc, table, TableKind::Unclear) {
        Ok(()) => GuideFileFault::WrongKind("seg", 0),
        Err(fault) => fault,
    }
}

/// A loop. Its own keys are judged before its nodes, whose numbers begin with `next`.
#[cycle(nodes)]
fn loop_node(
    alloc: Global,
    table: &Table,
    slot: u32,
    next: &mut u32,
) -> Result<Node, GuideFileFault>
    requires { next.old ≡ number_after slot 1 }
    ensures read { GivesAt tree_view result
        (guides.loop_node slot (table_view table.now) (guides.inner_nodes (number_after slot 1) (table_view table.now))) }
    ensures next { IfOk result (λ node. next.new ≡ number_after slot (count_in (tree_view node))) }
{
    let head = match known_loop(alloc, table) {
        Ok(head) => head,
        Err(fault) => return Err(fault.at(slot)),
    };
    let nodes = nodes_of(alloc, inner_of(table), next)?;
    Ok(Node::Loop(head, nodes))
}

/// A node; `next` is its number, and then the number after what is in it.
#[cycle(nodes)]
#[tactic(auto, using(crate::proofs::Placing::fails_at))]
fn node_of(alloc: Global, table: &Table, next: &mut u32) -> Result<Node, GuideFileFault>
    ensures read { GivesAt tree_view result (guides.node_by_table next.old (table_data (table_view table.now))) }
    ensures next { IfOk result (λ node. next.new ≡ number_after next.old (count_in (tree_view node))) }
{
    let slot = *next;
    *next = slot.saturating_add(1);
    match node_kind(table) {
        NodeKind::Segment => segment_at(alloc, table, slot),
        NodeKind::Loop => loop_node(alloc, table, slot, next),
        NodeKind::Unclear => Err(unclear_fault(alloc, table).at(slot)),
    }
}

fn push_node(nodes: &mut Vec<Node>, node: Node) -> Result<(), GuideFileFault>
    ensures ok { OnOk result (nodes.new.items ≡ nodes.old.items ++ node ∷ []) }
    ensures err { IfErr result (λ e. e ≡ GuideFileFault.NoMemory) }
{
    match nodes.push(node) {
        Ok(()) => Ok(()),
        Err(_) => Err(GuideFileFault::NoMemory),
    }
}

/// The nodes of a list of tables; `next` is the number of the first, and then the number after what is in the last.
#[cycle(nodes)]
pub(crate) fn nodes_of(
    alloc: Global,
    values: &[Value],
    next: &mut u32,
) -> Result<Vec<Node>, GuideFileFault>
    ensures read { GivesAt (λ v. nodes_view v.items) result (guides.nodes_in next.old (items_view values.now)) }
    ensures next { IfOk result (λ v. next.new ≡ number_after next.old (node_count (nodes_view v.items))) }
{
    // read, its range is known
    let _first = *next;
    let mut nodes = Vec::new(alloc);
    for value in values {
        match value.as_table() {
            None => return Err(GuideFileFault::WrongKind("nodes", *next)),
            Some(table) => match node_of(alloc, table, next) {
                Ok(node) => push_node(&mut nodes, node)?,
                Err(fault) => return Err(fault),
            },
        }
    }
    Ok(nodes)
}
