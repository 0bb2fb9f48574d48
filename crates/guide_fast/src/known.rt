ghost use Rattle.std.specs.Prelude.{◌≡◌, ◌+◌, ◌<◌, ◌≤◌, ◌^◌, ℕ, List, [], length, drop, true, IsTrue, IfOk, OnOk};
ghost use Rattle.std.specs.Bool.{OnTrue};
ghost use Rattle.guide_tree.specs.Words.{Segment, Place, view, nodes_view, fit_start, fit_starts, fit_in};
ghost use Rattle.guide_tree.specs.Words.{fit_next, ended_in, unused, past, missing, too_few};
ghost use Rattle.loop_match.specs.Leaving.{ended_among};
ghost use Rattle.guide_fast.specs.Ahead.{fit_begin, first_or_again, once_more, Adds, Any, StandsAt, IsTurnTo, IsStart, IsKnown};
ghost use Rattle.guide_fast.specs.Ahead.{AmongSilent, InSilent, children_of};

use crate::id_number::id_number;
use guide_tree::{Node, Slot};
use hub_kinds::NoMemory;
use loop_match::{Start, max_of, min_of};

/// A turn that is known before a walk comes to the place from which it goes, whatever the uses of that place are.
#[derive(Clone, Copy)]
pub(crate) struct KnownTurn<'g> {
    /// The number of its slot's id.
    pub(crate) number: u32,
    pub(crate) into_loop: bool,
    /// Whether it goes to a further use of the same child.
    pub(crate) again: bool,
    pub(crate) depth: usize,
    pub(crate) child: usize,
    /// Nothing is reported at it where its use is below this number.
    pub(crate) quiet: u64,
    pub(crate) slot: &'g Slot,
}

/// Where a node begins.
fn begin_of<'g>(node: &'g Node) -> Option<Start<'g>>
    ensures { (s : Segment) → fit_begin s result ≡ fit_start s (view node.entry.now) }
{
    match node {
        Node::Segment(slot) => Some(Start {
            into_loop: false,
            slot,
        }),
        Node::Loop(_, nodes) => match nodes.first() {
            Some(Node::Segment(slot)) => Some(Start {
                into_loop: true,
                slot,
            }),
            _ => None,
        },
    }
}

/// Below how many uses of a node nothing is reported of them, where it is silent up to it.
fn quiet_uses(node: &Node, silent: bool) -> u64
    ensures { (v : ℕ) → v < result → IsTrue silent × ((at : ℕ) (o : List ℕ) → past at o v (view node.now) ≡ []) }
{
    if silent { u64::from(max_of(node)) } else { 0 }
}

/// Whether nothing is reported up to the place after a node that is passed over.
fn is_passed(silent: bool, node: &Node) -> bool
    ensures { OnTrue result (IsTrue silent × ((at : ℕ) (o : List ℕ) → missing at o (view node.now) ≡ [])) }
{
    silent && min_of(node) == 0
}

/// Whether nothing is reported up to the place after a node that was used.
fn is_enough(silent: bool, node: &Node) -> bool
    ensures { OnTrue result (IsTrue silent × ((u at : ℕ) (o : List ℕ) → too_few at o (u + 1) (view node.now) ≡ [])) }
{
    silent && min_of(node) <= 1
}

/// Adds the turn to a child, if it has a start.
fn add_turn<'g>(
    turns: &mut Vec<KnownTurn<'g>>,
    node: &'g Node,
    depth: usize,
    child: usize,
    again: bool,
    silent: bool,
) -> Result<(), NoMemory>
    ensures { OnOk result (Adds depth (IsTurnTo depth child again silent (view node.entry.now)) Any
        (first_or_again child again (view node.entry.now)) turns.old.items turns.new.items) }
{
    let Some(start) = begin_of(node) else {
        return Ok(());
    };
    turns.push(KnownTurn {
        number: id_number(start.slot.id.as_slice()),
        into_loop: start.into_loop,
        again,
        depth,
        child,
        quiet: quiet_uses(node, silent),
        slot: start.slot,
    })?;
    Ok(())
}

/// Adds the turn to a further use of a child; there is none of a loop's first.
fn add_again<'g>(
    turns: &mut Vec<KnownTurn<'g>>,
    node: &'g Node,
    in_loop: bool,
    depth: usize,
    child: usize,
    silent: bool,
) -> Result<(), NoMemory>
    ensures { OnOk result (Adds depth (IsTurnTo depth child true silent (view node.entry.now)) Any
        (once_more in_loop child (view node.entry.now)) turns.old.items turns.new.items) }
{
    if in_loop && child == 0 {
        return Ok(());
    }
    add_turn(turns, node, depth, child, true, silent)
}

/// Adds the turns to the children from `from` on, and says whether nothing is reported where none of them comes.
pub(crate) fn add_starts<'g>(
    turns: &mut Vec<KnownTurn<'g>>,
    nodes: &'g [Node],
    from: usize,
    depth: usize,
    silent: bool,
) -> Result<bool, NoMemory>
    requires { from ≤ length nodes.now }
    ensures turns { IfOk result (λ more. Adds depth (IsStart depth from silent nodes.entry.now) Any
        (λ s p. fit_starts s from (nodes_view (drop from nodes.entry.now))) turns.old.items turns.new.items) }
    ensures silent { IfOk result (λ more. OnTrue more (IsTrue silent
        × ((at : ℕ) (o : List ℕ) → unused at o (nodes_view (drop from nodes.entry.now)) ≡ []))) }
{
    let mut silent = silent;
    for k in from..nodes.len() {
        let node = &nodes[k];
        add_turn(turns, node, depth, k, false, silent)?;
        silent = is_passed(silent, node);
    }
    Ok(silent)
}

/// Adds the turns from a place inside a node, and says whether nothing is reported where the node ends.
#[cycle(known)]
fn add_inside<'g>(
    turns: &mut Vec<KnownTurn<'g>>,
    node: &'g Node,
    depth: usize,
    path: &[usize],
) -> Result<bool, NoMemory>
    requires { depth + length path.now < 2 ^ 64 }
    ensures turns { IfOk result (λ more. Adds depth (IsKnown depth path.now (InSilent (view node.entry.now))) (StandsAt path.now)
        (λ s p. fit_in s (view node.entry.now) p) turns.old.items turns.new.items) }
    ensures silent { IfOk result (λ more. OnTrue more ((p : Place) → children_of p ≡ path.now → (at : ℕ)
        → ended_in at (view node.entry.now) p ≡ [])) }
{
    match node {
        Node::Segment(_) => Ok(true),
        Node::Loop(_, nodes) => add_among(turns, nodes, true, depth, path),
    }
}

/// Adds the turns from a place among the nodes of one parent, and says whether nothing is reported where these end.
#[cycle(known)]
pub(crate) fn add_among<'g>(
    turns: &mut Vec<KnownTurn<'g>>,
    nodes: &'g [Node],
    in_loop: bool,
    depth: usize,
    path: &[usize],
) -> Result<bool, NoMemory>
    requires { depth + length path.now < 2 ^ 64 }
    ensures turns { IfOk result (λ more. Adds depth (IsKnown depth path.now (AmongSilent (nodes_view nodes.entry.now)))
        (StandsAt path.now) (λ s p. fit_next s in_loop (nodes_view nodes.entry.now) p) turns.old.items turns.new.items) }
    ensures silent { IfOk result (λ more. OnTrue more ((p : Place) → children_of p ≡ path.now → (at : ℕ) (o : List ℕ)
        → ended_among at o (nodes_view nodes.entry.now) p ≡ [])) }
{
    let Some((child, rest)) = path.split_first() else {
        return Ok(true);
    };
    if *child >= nodes.len() {
        return Ok(true);
    }
    let node = &nodes[*child];
    let silent = add_inside(turns, node, depth + 1, rest)?;
    add_again(turns, node, in_loop, depth, *child, silent)?;
    let enough = is_enough(silent, node);
    add_starts(turns, nodes, *child + 1, depth, enough)
}
