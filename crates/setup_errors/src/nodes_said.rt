//! What is wrong with each node of a guide, looked at by itself.
ghost use Rattle.std.specs.Prelude.{◌≡◌, ◌++◌, length, IfOk, OnOk};
ghost use Rattle.guide_tree.specs.Words.{nodes_view, numbered, view};
ghost use Rattle.setup_errors.specs.NodesSaid as said;
ghost use Rattle.setup_errors.specs.Nodes.{numbered_node};
ghost use Rattle.setup_errors.specs.Search.{viewed};

use crate::bounds::{NodeCause, bounds_cause};
use crate::bounds_words::append_bounds;
use crate::condition_words::append_condition;
use crate::conditions::{ConditionCause, node_condition};
use crate::nodes::node_at;
use crate::trigger_words::append_trigger;
use crate::triggers::{TriggerCause, trigger_cause};
use guide_tree::Node;
use hub_kinds::{Items, MOST_NODES, NoMemory, Text, Texts};
use std::alloc::Global;

/// What is wrong with a node, by its number.
#[derive(Clone, Copy)]
pub enum NodeFault {
    Bounds(u32, NodeCause),
    Trigger(u32, TriggerCause),
    Condition(u32, ConditionCause),
}

fn push_bounds(found: &mut Vec<NodeFault>, number: u32, node: &Node) -> Result<(), NoMemory>
    ensures { OnOk result (found.new.items ≡ found.old.items ++ said.bounds_faults number (view node.now)) }
{
    if let Some(cause) = bounds_cause(node) {
        found.push(NodeFault::Bounds(number, cause))?;
    }
    Ok(())
}

fn push_loop(found: &mut Vec<NodeFault>, number: u32, node: &Node) -> Result<(), NoMemory>
    ensures { OnOk result (found.new.items ≡ found.old.items ++ said.loop_faults number (view node.now)) }
{
    if let Some(cause) = trigger_cause(node) {
        found.push(NodeFault::Trigger(number, cause))?;
    }
    Ok(())
}

/// Adds how a loop begins; nothing of a segment position.
fn push_trigger(found: &mut Vec<NodeFault>, number: u32, node: &Node) -> Result<(), NoMemory>
    ensures { OnOk result (found.new.items ≡ found.old.items ++ said.trigger_faults number (view node.now)) }
{
    match node {
        Node::Segment(_) => Ok(()),
        Node::Loop(_, _) => push_loop(found, number, node),
    }
}

fn push_condition(found: &mut Vec<NodeFault>, number: u32, node: &Node) -> Result<(), NoMemory>
    ensures { OnOk result (found.new.items ≡ found.old.items ++ said.condition_faults number (view node.now)) }
{
    if let Some(cause) = node_condition(node) {
        found.push(NodeFault::Condition(number, cause))?;
    }
    Ok(())
}

fn push_node(found: &mut Vec<NodeFault>, number: u32, node: &Node) -> Result<(), NoMemory>
    ensures { OnOk result (found.new.items ≡ found.old.items ++ said.faults_of number (view node.now)) }
{
    push_bounds(found, number, node)?;
    push_trigger(found, number, node)?;
    push_condition(found, number, node)
}

fn push_found(found: &mut Vec<NodeFault>, number: u32, node: Option<&Node>) -> Result<(), NoMemory>
    ensures { OnOk result (found.new.items ≡ found.old.items ++ said.found_faults number (viewed node.entry)) }
{
    match node {
        None => Ok(()),
        Some(node) => push_node(found, number, node),
    }
}

/// Adds what is wrong with the node that has a number.
fn push_numbered(found: &mut Vec<NodeFault>, number: u32, nodes: &[Node]) -> Result<(), NoMemory>
    ensures { OnOk result (found.new.items ≡ found.old.items
        ++ said.found_faults number (numbered_node number (numbered 1 (nodes_view nodes.now)))) }
{
    push_found(found, number, node_at(nodes, number))
}

#[tactic(auto, unfolding(crate::specs::NodesSaid::faults_up_to))]
fn push_up_to(found: &mut Vec<NodeFault>, most: u32, nodes: &[Node]) -> Result<(), NoMemory>
    ensures { OnOk result (found.new.items ≡ found.old.items ++ said.faults_up_to most (numbered 1 (nodes_view nodes.now))) }
{
    for before in 0..most {
        push_numbered(found, before + 1, nodes)?;
    }
    Ok(())
}

/// What is wrong with each node of a guide, by their numbers. The only error is out of memory.
pub fn node_faults(alloc: Global, nodes: &[Node]) -> Result<Vec<NodeFault>, NoMemory>
    ensures { IfOk result (λ faults. faults.items ≡ said.node_faults (numbered 1 (nodes_view nodes.now))) }
{
    let mut found = Vec::new(alloc);
    push_up_to(&mut found, MOST_NODES as u32, nodes)?;
    Ok(found)
}

fn fault_text(alloc: Global, fault: NodeFault, nodes: &[Node]) -> Result<Text, NoMemory> {
    let mut text = Vec::new(alloc);
    match fault {
        NodeFault::Bounds(number, _) => append_bounds(&mut text, number, nodes)?,
        NodeFault::Trigger(number, _) => append_trigger(&mut text, number, nodes)?,
        NodeFault::Condition(number, _) => append_condition(&mut text, number, nodes)?,
    }
    Ok(Items::from_vec(text))
}

fn texts_of(alloc: Global, faults: &[NodeFault], nodes: &[Node]) -> Result<Texts, NoMemory>
    ensures { IfOk result (λ texts. length texts ≡ length faults.now) }
{
    let mut texts = Vec::new(alloc);
    for i in 0..faults.len() {
        texts.push(fault_text(alloc, faults[i], nodes)?)?;
    }
    Ok(Items::from_vec(texts))
}

/// A text for each of `node_faults`, in their order. The only error is out of memory.
pub fn node_texts(alloc: Global, nodes: &[Node]) -> Result<Texts, NoMemory>
    ensures { IfOk result (λ texts. length texts ≡ length (said.node_faults (numbered 1 (nodes_view nodes.now)))) }
{
    let faults = node_faults(alloc, nodes)?;
    texts_of(alloc, faults.as_slice(), nodes)
}
