ghost use Rattle.std.specs.Prelude.{◌≡◌, ◌&&◌};
ghost use Rattle.std.specs.List.{list_all};
ghost use Rattle.guide_tree.specs.Conditions.{is_condition_of, is_label_new, is_slot_conditioned, is_conditioned};
ghost use Rattle.guide_tree.specs.Conditions.{is_dependency_of, is_hierarchy_of};
ghost use Rattle.guide_tree.specs.Rules.{keeps, first_failing};
ghost use Rattle.guide_tree.specs.View.{view, nodes_view};

use crate::bounds::is_bounded;
use crate::conditions::{are_picks_of, has_row, is_condition_of, is_triggered};
use crate::lookup::{hierarchy_slot, slot_labelled};
use crate::node::Node;
use crate::rows::{Dependency, HlRule};
use crate::slot::{Condition, Slot};

/// What each node is judged by.
#[derive(Clone, Copy)]
pub enum Rule {
    Bounds,
    Trigger,
    Conditions,
}

fn are_conditions_of(slot: &Slot, conditions: &[Condition]) -> bool
    ensures { result ≡ list_all (is_condition_of slot.now) conditions.now }
{
    conditions
        .iter()
        .all(|condition| is_condition_of(slot, condition))
}

fn is_label_new(all: &[Node], slot: &Slot) -> bool
    ensures { result ≡ is_label_new (nodes_view all.now) slot.now }
{
    match &slot.label {
        None => true,
        Some(label) => match slot_labelled(all, label.as_slice()) {
            None => true,
            Some(first) => slot.number <= first.number,
        },
    }
}

fn is_slot_conditioned(all: &[Node], slot: &Slot) -> bool
    ensures { result ≡ is_slot_conditioned (nodes_view all.now) slot.now }
{
    are_conditions_of(slot, slot.conditions.as_slice())
        && are_picks_of(slot, slot.picks.as_slice())
        && is_label_new(all, slot)
}

fn is_conditioned(all: &[Node], node: &Node) -> bool
    ensures { result ≡ is_conditioned (nodes_view all.now) (view node.now) }
{
    match node {
        Node::Segment(slot) => is_slot_conditioned(all, slot),
        Node::Loop(_, _) => true,
    }
}

fn keeps(rule: Rule, all: &[Node], node: &Node) -> bool
    ensures { result ≡ keeps rule (nodes_view all.now) (view node.now) }
{
    match rule {
        Rule::Bounds => is_bounded(node),
        Rule::Trigger => is_triggered(node),
        Rule::Conditions => is_conditioned(all, node),
    }
}

/// The number of the first of the nodes, parents first, that breaks the rule among all nodes of the guide.
pub(crate) fn first_breaking(nodes: &[Node], rule: Rule, all: &[Node]) -> Option<u32>
    ensures { result ≡ first_failing (keeps rule (nodes_view all.now)) (nodes_view nodes.now) }
{
    for node in nodes {
        let found = if !keeps(rule, all, node) {
            Some(node.number())
        } else {
            match node {
                Node::Segment(_) => None,
                Node::Loop(_, inner) => first_breaking(inner, rule, all),
            }
        };
        if found.is_some() {
            return found;
        }
    }
    None
}

fn is_dependency_of(nodes: &[Node], dependency: &Dependency) -> bool
    ensures { result ≡ is_dependency_of (nodes_view nodes.now) dependency.now }
{
    let is_source_known = match slot_labelled(nodes, dependency.slot.as_slice()) {
        None => false,
        Some(slot) => has_row(slot, dependency.at),
    };
    is_source_known
        && match slot_labelled(nodes, dependency.target.as_slice()) {
            None => false,
            Some(slot) => dependency.element == 0 || has_row(slot, dependency.element),
        }
}

fn are_dependencies_of(nodes: &[Node], depends: &[Dependency]) -> bool
    ensures { result ≡ list_all (is_dependency_of (nodes_view nodes.now)) depends.now }
{
    depends
        .iter()
        .all(|dependency| is_dependency_of(nodes, dependency))
}

fn is_hierarchy_of(nodes: &[Node], hl: &Option<HlRule>) -> bool
    ensures { result ≡ is_hierarchy_of (nodes_view nodes.now) hl.now }
{
    match hl {
        None => true,
        Some(_) => hierarchy_slot(nodes).is_some(),
    }
}

/// Whether dependencies and the rule of the hierarchy speak of slots and elements that there are.
pub(crate) fn are_names_known(nodes: &[Node], depends: &[Dependency], hl: &Option<HlRule>) -> bool
    ensures { result ≡ list_all (is_dependency_of (nodes_view nodes.now)) depends.now && is_hierarchy_of (nodes_view nodes.now) hl.now }
{
    are_dependencies_of(nodes, depends) && is_hierarchy_of(nodes, hl)
}
