ghost use Rattle.std.specs.Prelude.{◌≡◌, ◌≤◌, [], length, drop, option_map, IfSome};
ghost use Rattle.x12_segs.specs.Words.{elements_of};
ghost use Rattle.guide_tree.specs.Words.{nodes_view, fit_starts};
ghost use Rattle.guide_fast.specs.Children.{fit_child, fit_listed, until};
ghost use Rattle.guide_fast.specs.IdNumber.{HasNumber, begin_numbers};
ghost use Rattle.guide_fast.specs.FirstPick.{HasValue, begin_picks};
ghost use Rattle.guide_fast.specs.Keys.{begin_keys, begin_reach, Reaches};
ghost use Rattle.guide_fast.specs.Listed.{Knows};
ghost use Rattle.loop_match.specs.Steps.{turned};

use crate::counts::{count_between, needed_counts};
use crate::first_pick::{Asked, FirstPick, asked_id, begin_picks};
use crate::id_number::begin_numbers;
use crate::index::{TextIndex, places_from};
use crate::keys::{begin_key, nodes_reach};
use crate::start::{start_asked, start_picked};
use guide_tree::Node;
use hub_kinds::NoMemory;
use loop_match::{Turn, text_at};
use std::alloc::Global;
use std::marker::Model;
use x12_segs::SegView;

/// How many nodes are looked at one by one, by the numbers of their ids: a search would cost more.
const FEW: usize = 32;

/// The nodes of one parent, with the places of each id that they begin with. Contracts see the nodes.
#[derive(Drop)]
pub struct Children<'g> {
    nodes: &'g [Node],
    /// The numbers of the ids that the nodes begin with.
    numbers: Vec<u32>,
    /// The first picks of the slots that they begin with.
    picks: Vec<FirstPick>,
    /// The places of each text by which they are looked for.
    index: TextIndex<'g>,
    /// How many of a segment's first texts these are.
    reach: usize,
    /// How many of the first nodes are needed: of none of them, of one, and so on up to all.
    needed: Vec<usize>,
}

impl<'g> Model for Children<'g> {
    ghost use Rattle.std.specs.Prelude.{◌≡◌, List};
    ghost use Rattle.guide_tree.specs.declared.node.Node.{Node};
    ghost use Rattle.guide_fast.specs.Listed.{Knows};
    ghost use Rattle.guide_fast.specs.Keys.{begin_keys, begin_reach, Reaches};
    ghost use Rattle.guide_fast.specs.Needed.{counts_from};
    ghost use Rattle.guide_fast.specs.IdNumber.{begin_numbers};
    ghost use Rattle.guide_fast.specs.FirstPick.{begin_picks};
    ghost use Rattle.guide_tree.specs.contracts.node.Node as node;
    ghost use Rattle.std.specs.Coded.{codes};

    ghost Value = { List Node };

    ghost coded = { Prim.hlevel (codes, node.the_row.coded) };

    ghost view = { λ c. c.nodes.now };

    ghost invariant = { λ c. Knows c.index.places (begin_keys c.nodes.now) × (c.needed.items ≡ counts_from 0 c.nodes.now)
        × (c.numbers.items ≡ begin_numbers c.nodes.now) × (c.picks.items ≡ begin_picks c.nodes.now)
        × Reaches begin_reach c.reach c.nodes.now };
}

impl<'g> Children<'g> {
    ghost use Rattle.std.specs.Prelude.{◌≡◌, ◌+◌, ◌-◌, ◌<◌, ◌≤◌, ℕ, [], List, length, take, drop, option_map, IfOk, IfSome};
    ghost use Rattle.x12_segs.specs.Words.{elements_of};
    ghost use Rattle.guide_tree.specs.Words.{nodes_view, fit_starts, unused};
    ghost use Rattle.guide_tree.specs.declared.node.Node.{Node};
    ghost use Rattle.guide_fast.specs.IdNumber.{HasNumber, begin_number};
    ghost use Rattle.std.specs.Prelude.{slice_index_or};
    ghost use Rattle.loop_match.specs.Steps.{turned};

    /// The children of a node, which are `nodes`.
    pub fn of(alloc: Global, nodes: &'g [Node]) -> Result<Children<'g>, NoMemory>
        ensures { IfOk result (λ c. c ≡ nodes.now) }
    {
        let mut index = TextIndex::new(alloc);
        for k in 0..nodes.len() {
            index.add(begin_key(&nodes[k]), k)?;
        }
        let needed = needed_counts(alloc, nodes)?;
        let numbers = begin_numbers(alloc, nodes)?;
        let picks = begin_picks(alloc, nodes)?;
        Ok(Children {
            nodes,
            numbers,
            picks,
            index,
            reach: nodes_reach(nodes),
            needed,
        })
    }

    /// The nodes.
    pub fn nodes(&self) -> &'g [Node]
        ensures { result.now ≡ self.now }
    {
        self.nodes
    }

    /// The number of the id that a child begins with.
    #[inline]
    pub(crate) fn number_at(&self, child: usize) -> u32
        requires { child < length self.now }
        ensures { (n : Node) → n ≡ slice_index_or self.now child n → result ≡ begin_number n }
    {
        self.numbers[child]
    }

    /// How many of the nodes from `from` on up to `to` are needed: as many as are reported where none of them comes.
    pub fn needed_between(&self, from: usize, to: usize) -> usize
        requires order { from ≤ to }
        requires bound { to ≤ length self.now }
        ensures { (at : ℕ) (outer : List ℕ)
            → result ≡ length (unused at outer (nodes_view (take (to - from) (drop from self.now)))) }
    {
        count_between(self.needed.as_slice(), from, to)
    }

    /// The first child from `from` on whose start the segment fits, as a turn. The number of the segment's id is `number`.
    #[inline]
    pub(crate) fn start_numbered(&self, from: usize, number: u32, seg: &SegView) -> Option<Turn<'g>>
        requires number { HasNumber (elements_of seg.now) number }
        requires from { from ≤ length self.now }
        ensures turn { option_map (turned []) result ≡ fit_starts (elements_of seg.now) from (nodes_view (drop from self.now)) }
        ensures depth { IfSome result (λ t. t.depth ≡ 0) }
        ensures uses { IfSome result (λ t. t.use_no ≡ 0) }
    {
        let (nodes, picks) = (self.nodes, self.picks.as_slice());
        if nodes.len() - from <= FEW {
            return start_among(nodes, self.numbers.as_slice(), picks, from, number, seg);
        }
        start_looked_up(nodes, picks, &self.index, self.reach, from, number, seg)
    }

    /// The first child after `child` whose start the segment fits, as a turn. The number of the segment's id is `number`.
    #[inline]
    pub(crate) fn start_numbered_behind(
        &self,
        child: usize,
        number: u32,
        seg: &SegView,
    ) -> Option<Turn<'g>>
        requires number { HasNumber (elements_of seg.now) number }
        requires child { child < length self.now }
        ensures turn { option_map (turned []) result
            ≡ fit_starts (elements_of seg.now) (child + 1) (nodes_view (drop (child + 1) self.now)) }
        ensures depth { IfSome result (λ t. t.depth ≡ 0) }
        ensures uses { IfSome result (λ t. t.use_no ≡ 0) }
    {
        if child < self.nodes.len() {
            self.start_numbered(child + 1, number, seg)
        } else {
            None
        }
    }
}

/// The first child from `from` on whose start the segment fits, as a turn, child by child.
fn start_among<'g>(
    nodes: &'g [Node],
    numbers: &[u32],
    picks: &[FirstPick],
    from: usize,
    number: u32,
    seg: &SegView,
) -> Option<Turn<'g>>
    requires numbers { numbers.now ≡ begin_numbers nodes.now }
    requires picks { picks.now ≡ begin_picks nodes.now }
    requires number { HasNumber (elements_of seg.now) number }
    requires from { from ≤ length nodes.now }
    ensures turn { option_map (turned []) result ≡ fit_starts (elements_of seg.now) from (nodes_view (drop from nodes.entry.now)) }
    ensures depth { IfSome result (λ t. t.depth ≡ 0) }
    ensures uses { IfSome result (λ t. t.use_no ≡ 0) }
{
    let mut asked = asked_id(number, seg);
    for k in from..nodes.len() {
        if let Some(start) = start_picked(
            &nodes[k], numbers[k], picks[k], number, &mut asked, seg,
        ) {
            return Some(Turn {
                depth: 0,
                child: k,
                use_no: 0,
                into_loop: start.into_loop,
                slot: start.slot,
            });
        }
    }
    None
}

/// The turn to a child, if the segment fits its start.
fn turn_to<'g>(
    nodes: &'g [Node],
    picks: &[FirstPick],
    child: usize,
    asked: &mut Asked,
    seg: &SegView,
) -> Option<Turn<'g>>
    requires picks { picks.now ≡ begin_picks nodes.now }
    requires asked { HasValue (elements_of seg.now) asked.old }
    ensures asked { HasValue (elements_of seg.now) asked.new }
    ensures turn { option_map (turned []) result ≡ fit_child (elements_of seg.now) nodes.entry.now child }
    ensures depth { IfSome result (λ t. t.depth ≡ 0) }
    ensures uses { IfSome result (λ t. t.use_no ≡ 0) }
{
    let node = nodes.get(child)?;
    match start_asked(node, picks[child], asked, seg) {
        None => None,
        Some(start) => Some(Turn {
            depth: 0,
            child,
            use_no: 0,
            into_loop: start.into_loop,
            slot: start.slot,
        }),
    }
}

/// The first of some children whose start the segment fits, up to one before a place.
fn first_fitting<'g>(
    nodes: &'g [Node],
    picks: &[FirstPick],
    children: &[usize],
    end: usize,
    number: u32,
    seg: &SegView,
) -> Option<Turn<'g>>
    requires picks { picks.now ≡ begin_picks nodes.now }
    requires number { HasNumber (elements_of seg.now) number }
    ensures turn { option_map (turned []) result ≡ fit_listed (elements_of seg.now) nodes.entry.now (until end children.now) }
    ensures depth { IfSome result (λ t. t.depth ≡ 0) }
    ensures uses { IfSome result (λ t. t.use_no ≡ 0) }
{
    let mut asked = asked_id(number, seg);
    for i in 0..children.len() {
        if children[i] >= end {
            return None;
        }
        if let Some(turn) = turn_to(nodes, picks, children[i], &mut asked, seg) {
            return Some(turn);
        }
    }
    None
}

/// The first child from `from` on whose start the segment fits, as a turn, by its first elements.
fn start_looked_up<'g>(
    nodes: &'g [Node],
    picks: &[FirstPick],
    index: &TextIndex<'g>,
    reach: usize,
    from: usize,
    number: u32,
    seg: &SegView,
) -> Option<Turn<'g>>
    requires picks { picks.now ≡ begin_picks nodes.now }
    requires index { Knows index.now.places (begin_keys nodes.now) }
    requires reach { Reaches begin_reach reach nodes.now }
    requires number { HasNumber (elements_of seg.now) number }
    requires from { from ≤ length nodes.now }
    ensures turn { option_map (turned []) result ≡ fit_starts (elements_of seg.now) from (nodes_view (drop from nodes.entry.now)) }
    ensures depth { IfSome result (λ t. t.depth ≡ 0) }
    ensures uses { IfSome result (λ t. t.use_no ≡ 0) }
{
    let mut first = None;
    let mut end = nodes.len();
    for position in 0..reach {
        let children = places_from(index.places(text_at(seg, position)), from);
        if let Some(turn) = first_fitting(nodes, picks, children, end, number, seg) {
            first = Some(turn);
            end = turn.child;
        }
    }
    first
}
