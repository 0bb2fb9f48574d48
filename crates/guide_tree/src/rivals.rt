ghost use Rattle.std.specs.Prelude.{◌≡◌, ◌≤◌, option_map, drop, length};
ghost use Rattle.std.specs.List.{list_any, list_all};
ghost use Rattle.hub_kinds.specs.Words.{contains_text};
ghost use Rattle.guide_tree.specs.Segments.{share_text, agree, can_fit_both};
ghost use Rattle.guide_tree.specs.Rivals.{entry, numbers_of, is_less, keep_least, against_slot, against};
ghost use Rattle.guide_tree.specs.Rivals.{against_each, within, within_in, least_rivals, least_in};
ghost use Rattle.guide_tree.specs.View.{view, nodes_view};

use crate::codes::Codes;
use crate::node::Node;
use crate::slot::{Pick, Slot};
use hub_kinds::Text;

fn share_text(codes: &Codes, others: &[Text]) -> bool
    ensures { result ≡ share_text codes.now others.now }
{
    others.iter().any(|other| codes.contains(other.as_slice()))
}

fn agree(pick: &Pick, other: &Pick) -> bool
    ensures { result ≡ agree pick.now other.now }
{
    pick.position != other.position || share_text(&pick.codes, other.codes.as_slice())
}

fn agrees_with_each(pick: &Pick, others: &[Pick]) -> bool
    ensures { result ≡ list_all (agree pick.now) others.now }
{
    others.iter().all(|other| agree(pick, other))
}

fn agree_each(picks: &[Pick], others: &[Pick]) -> bool
    ensures { result ≡ list_all (λ p. list_all (agree p) others.now) picks.now }
{
    picks.iter().all(|pick| agrees_with_each(pick, others))
}

fn can_fit_both(slot: &Slot, other: &Slot) -> bool
    ensures { result ≡ can_fit_both slot.now other.now }
{
    slot.id.as_slice() == other.id.as_slice()
        && agree_each(slot.picks.as_slice(), other.picks.as_slice())
}

/// The slot that a node begins with.
fn entry(node: &Node) -> Option<&Slot>
    ensures { option_map (λ s. s.now) result ≡ entry (view node.entry.now) }
{
    match node {
        Node::Segment(slot) => Some(slot),
        Node::Loop(_, nodes) => match nodes.first() {
            Some(Node::Segment(slot)) => Some(slot),
            _ => None,
        },
    }
}

/// Two slots' numbers, the lesser first.
pub type Numbers = (u32, u32);

fn numbers_of(slot: &Slot, other: &Slot) -> Numbers
    ensures { result ≡ numbers_of slot.now other.now }
{
    if slot.number <= other.number {
        (slot.number, other.number)
    } else {
        (other.number, slot.number)
    }
}

fn is_less(numbers: Numbers, than: Numbers) -> bool
    ensures { result ≡ is_less numbers than }
{
    numbers.0 < than.0 || (numbers.0 == than.0 && numbers.1 < than.1)
}

fn keep_least(best: Option<Numbers>, numbers: Numbers) -> Option<Numbers>
    ensures { result ≡ keep_least best numbers }
{
    match best {
        None => Some(numbers),
        Some(least) => {
            if is_less(numbers, least) {
                Some(numbers)
            } else {
                Some(least)
            }
        }
    }
}

fn against_slot(best: Option<Numbers>, slot: &Slot, other: &Slot) -> Option<Numbers>
    ensures { result ≡ against_slot best slot.now other.now }
{
    if can_fit_both(slot, other) {
        keep_least(best, numbers_of(slot, other))
    } else {
        best
    }
}

fn against(best: Option<Numbers>, slot: Option<&Slot>, other: Option<&Slot>) -> Option<Numbers>
    ensures { result ≡ against best (option_map (λ s. s.now) slot.entry) (option_map (λ s. s.now) other.entry) }
{
    match (slot, other) {
        (Some(slot), Some(other)) => against_slot(best, slot, other),
        _ => best,
    }
}

/// A slot against those that the nodes begin with.
fn against_each(best: Option<Numbers>, slot: Option<&Slot>, nodes: &[Node]) -> Option<Numbers>
    ensures { result ≡ against_each best (option_map (λ s. s.now) slot.entry) (nodes_view nodes.now) }
{
    let mut least = best;
    for node in nodes {
        least = against(least, slot, entry(node));
    }
    least
}

/// What is in a node against what others begin with.
#[cycle(within)]
fn within_node(node: &Node, outer: &[Node], best: Option<Numbers>) -> Option<Numbers>
    ensures { result ≡ within_in (nodes_view outer.now) best (view node.now) }
{
    match node {
        Node::Segment(_) => best,
        Node::Loop(_, inner) => within_nodes(inner, 1, outer, best),
    }
}

/// What the nodes from `from` on begin with, and what is in them, against what others begin with.
#[cycle(within)]
fn within_nodes(
    nodes: &[Node],
    from: usize,
    outer: &[Node],
    best: Option<Numbers>,
) -> Option<Numbers>
    ensures { result ≡ within (nodes_view outer.now) best (nodes_view (drop from nodes.now)) }
{
    let mut least = best;
    for i in from..nodes.len() {
        least = against_each(least, entry(&nodes[i]), outer);
        least = within_node(&nodes[i], outer, least);
    }
    least
}

/// The least pair of rivals in a node, or the best so far.
#[cycle(rivals)]
fn least_in(node: &Node, best: Option<Numbers>) -> Option<Numbers>
    ensures { result ≡ least_in best (view node.now) }
{
    match node {
        Node::Segment(_) => best,
        Node::Loop(_, inner) => least_rivals(inner, 1, best),
    }
}

/// The least pair of rivals among the nodes from `from` on and in them, or the best so far.
#[cycle(rivals)]
pub(crate) fn least_rivals(nodes: &[Node], from: usize, best: Option<Numbers>) -> Option<Numbers>
    ensures { result ≡ least_rivals best (nodes_view (drop from nodes.now)) }
{
    let mut least = best;
    for i in from..nodes.len() {
        least = against_each(least, entry(&nodes[i]), &nodes[i + 1..]);
        least = within_node(&nodes[i], &nodes[i..], least);
        least = least_in(&nodes[i], least);
    }
    least
}
