ghost use Rattle.std.specs.Prelude.{◌≡◌, ◌==◌, ◌&&◌, map};
ghost use Rattle.std.specs.List.{list_all, list_any};
ghost use Rattle.guide_tree.specs.Conditions.{is_once, has_trigger, is_triggered, is_distinct, has_row};
ghost use Rattle.guide_tree.specs.Conditions.{is_condition_of, is_pick_of, pick_position, are_picks_of};
ghost use Rattle.guide_tree.specs.View.{view, nodes_view};

use crate::bounds::is_filled;
use crate::node::Node;
use crate::slot::{Condition, Pick, Slot};

fn is_once(slot: &Slot) -> bool
    ensures { result ≡ is_once slot.now }
{
    slot.min == 1 && slot.max == 1
}

fn has_trigger(nodes: &[Node]) -> bool
    ensures { result ≡ has_trigger (nodes_view nodes.now) }
{
    match nodes.first() {
        Some(Node::Segment(slot)) => is_once(slot),
        _ => false,
    }
}

/// Whether a loop begins with a segment that is there exactly once.
pub(crate) fn is_triggered(node: &Node) -> bool
    ensures { result ≡ is_triggered (view node.now) }
{
    match node {
        Node::Segment(_) => true,
        Node::Loop(_, nodes) => has_trigger(nodes),
    }
}

/// Whether a slot has a row for the element at a position, from 1 on.
pub(crate) fn has_row(slot: &Slot, position: u32) -> bool
    ensures { result ≡ has_row slot.now position }
{
    1 <= position && position as usize <= slot.elements.as_slice().len()
}

fn has_number(numbers: &[u32], number: u32) -> bool
    ensures { result ≡ list_any (λ other. number == other) numbers.now }
{
    numbers.iter().any(|other| number == *other)
}

fn is_distinct(positions: &[u32]) -> bool
    ensures { result ≡ is_distinct positions.now }
{
    for i in 0..positions.len() {
        if has_number(&positions[i + 1..], positions[i]) {
            return false;
        }
    }
    true
}

fn have_rows(slot: &Slot, positions: &[u32]) -> bool
    ensures { result ≡ list_all (has_row slot.now) positions.now }
{
    positions.iter().all(|position| has_row(slot, *position))
}

/// Whether positions have rows and none appears twice. Those that have rows are no more than the rows, unless one does.
fn are_rows_once(slot: &Slot, positions: &[u32]) -> bool
    ensures { result ≡ is_distinct positions.now && list_all (has_row slot.now) positions.now }
{
    if !have_rows(slot, positions) {
        return false;
    }
    if positions.len() > slot.elements.as_slice().len() {
        return false;
    }
    is_distinct(positions)
}

/// Whether a relational condition has two or more positions, none of them twice and each with a row.
pub(crate) fn is_condition_of(slot: &Slot, condition: &Condition) -> bool
    ensures { result ≡ is_condition_of slot.now condition.now }
{
    let positions = condition.positions.as_slice();
    2 <= positions.len() && are_rows_once(slot, positions)
}

fn is_pick_of(slot: &Slot, pick: &Pick) -> bool
    ensures { result ≡ is_pick_of slot.now pick.now }
{
    has_row(slot, pick.position) && is_filled(pick.codes.as_slice())
}

fn has_position(picks: &[Pick], position: u32) -> bool
    ensures { result ≡ list_any (λ other. position == other) (map pick_position picks.now) }
{
    for pick in picks {
        if position == pick.position {
            return true;
        }
    }
    false
}

fn are_positions_distinct(picks: &[Pick]) -> bool
    ensures { result ≡ is_distinct (map pick_position picks.now) }
{
    for i in 0..picks.len() {
        if has_position(&picks[i + 1..], picks[i].position) {
            return false;
        }
    }
    true
}

fn are_each_picks_of(slot: &Slot, picks: &[Pick]) -> bool
    ensures { result ≡ list_all (is_pick_of slot.now) picks.now }
{
    picks.iter().all(|pick| is_pick_of(slot, pick))
}

/// Whether picks have positions with rows, none of them twice, and some codes.
pub(crate) fn are_picks_of(slot: &Slot, picks: &[Pick]) -> bool
    ensures { result ≡ are_picks_of slot.now picks.now }
{
    if !are_each_picks_of(slot, picks) {
        return false;
    }
    if picks.len() > slot.elements.as_slice().len() {
        return false;
    }
    are_positions_distinct(picks)
}
