//! What of a segment position's conditions and picks can't be.
ghost use Rattle.std.specs.Prelude.{◌≡◌, not, length, option_and_then};
ghost use Rattle.std.specs.List.{find, list_any};
ghost use Rattle.guide_tree.specs.Words.{has_row, nodes_view, numbered, view};
ghost use Rattle.setup_errors.specs.Conditions as conditions;
ghost use Rattle.setup_errors.specs.Nodes.{numbered_node};
ghost use Rattle.setup_errors.specs.Search.{viewed};

use crate::nodes::node_at;
use guide_tree::{Condition, Node, Pick, Slot};

/// What of a condition or a pick can't be.
#[derive(Clone, Copy)]
pub enum ConditionCause {
    /// A condition names an element that isn't defined.
    NoRow(u32),
    /// A condition names fewer than two elements.
    Few,
    /// A pick names an element that isn't defined.
    PickNoRow(u32),
    /// A pick has no code.
    PickNoCode(u32),
}

fn has_row(slot: &Slot, position: u32) -> bool
    ensures { result ≡ has_row slot.now position }
{
    1 <= position && position as usize <= slot.elements.as_slice().len()
}

/// The first of these positions at which the segment has no element.
fn missing_row(slot: &Slot, positions: &[u32]) -> Option<u32>
    ensures { result ≡ conditions.missing_row slot.now positions.now }
{
    for i in 0..positions.len() {
        if !has_row(slot, positions[i]) {
            return Some(positions[i]);
        }
    }
    None
}

fn missing_rows(slot: &Slot, listed: &[Condition]) -> Option<u32>
    ensures { result ≡ conditions.missing_rows slot.now listed.now }
{
    for i in 0..listed.len() {
        let found = missing_row(slot, listed[i].positions.as_slice());
        if found.is_some() {
            return found;
        }
    }
    None
}

fn are_few(condition: &Condition) -> bool
    ensures { result ≡ conditions.are_few condition.now }
{
    condition.positions.as_slice().len() < 2
}

fn has_few(listed: &[Condition]) -> bool
    ensures { result ≡ list_any conditions.are_few listed.now }
{
    listed.iter().any(are_few)
}

fn pick_cause(slot: &Slot, pick: &Pick) -> Option<ConditionCause>
    ensures { result ≡ conditions.pick_cause slot.now pick.now }
{
    if !has_row(slot, pick.position) {
        return Some(ConditionCause::PickNoRow(pick.position));
    }
    if pick.codes.as_slice().is_empty() {
        return Some(ConditionCause::PickNoCode(pick.position));
    }
    None
}

fn picks_cause(slot: &Slot, picks: &[Pick]) -> Option<ConditionCause>
    ensures { result ≡ conditions.picks_cause slot.now picks.now }
{
    for i in 0..picks.len() {
        let found = pick_cause(slot, &picks[i]);
        if found.is_some() {
            return found;
        }
    }
    None
}

/// The first that can't be; none where an element or a label is twice, or all can be.
fn condition_cause(slot: &Slot) -> Option<ConditionCause>
    ensures { result ≡ conditions.condition_cause slot.now }
{
    let listed = slot.conditions.as_slice();
    if let Some(position) = missing_rows(slot, listed) {
        return Some(ConditionCause::NoRow(position));
    }
    if has_few(listed) {
        return Some(ConditionCause::Few);
    }
    picks_cause(slot, slot.picks.as_slice())
}

/// What of a node can't be, if it is a segment position.
pub(crate) fn node_condition(node: &Node) -> Option<ConditionCause>
    ensures { result ≡ conditions.node_condition (view node.now) }
{
    match node {
        Node::Segment(slot) => condition_cause(slot),
        Node::Loop(_, _) => None,
    }
}

fn condition_of(node: Option<&Node>) -> Option<ConditionCause>
    ensures { result ≡ option_and_then conditions.node_condition (viewed node.entry) }
{
    match node {
        None => None,
        Some(node) => node_condition(node),
    }
}

/// What can't be of the node with a number.
pub(crate) fn condition_at(nodes: &[Node], number: u32) -> Option<ConditionCause>
    ensures { result ≡ option_and_then conditions.node_condition (numbered_node number (numbered 1 (nodes_view nodes.now))) }
{
    condition_of(node_at(nodes, number))
}
