ghost use Rattle.std.specs.Prelude.{◌≡◌, ◌<◌, ◌≤◌, ◌+◌, ◌^◌, ℕ, List, true, IfOk, OnOk, length};
ghost use Rattle.std.specs.Bool.{OnTrue};
ghost use Rattle.std.specs.List.{AllByRecursion};
ghost use Rattle.x12_segs.specs.Words.{elements_of};
ghost use Rattle.guide_tree.specs.Words.{nodes_view, fit_behind, fits};
ghost use Rattle.loop_match.specs.Steps.{place_view, turned};
ghost use Rattle.guide_fast.specs.IdNumber.{HasNumber, id_number};
ghost use Rattle.guide_fast.specs.Ahead.{Adds, IsKnown, StandsAt, BehindSilent, IsStationIfAny, AreStations};
ghost use Rattle.guide_fast.specs.Ahead.{next_use, led};

use crate::known::{KnownTurn, add_among, add_starts};
use crate::start::fits_with;
use guide_tree::Node;
use hub_kinds::NoMemory;
use loop_match::{Step, Turn};
use std::alloc::Global;
use x12_segs::SegView;

/// How many turns are kept of a slot: to look at that many costs less than a search.
const MOST: usize = 32;

/// All turns from the places that lead by these children, whatever their uses are, the innermost loop's first.
#[derive(Drop)]
pub(crate) struct Station<'g> {
    pub(crate) path: Vec<usize>,
    pub(crate) turns: Vec<KnownTurn<'g>>,
}

/// The turn to a segment's place, and whether surely nothing is reported there of the order and number of segments.
#[derive(Clone, Copy)]
pub struct NextTurn<'g> {
    pub turn: Turn<'g>,
    pub silent: bool,
}

/// How many turns there are at most from the places that lead by these children. It only says which of them are kept.
fn turn_count(nodes: &[Node], path: &[usize]) -> usize {
    if path.is_empty() {
        return nodes.len();
    }
    let mut nodes = nodes;
    let mut count: usize = 0;
    for k in 0..path.len() {
        count = count.saturating_add(nodes.len().saturating_sub(path[k]));
        match nodes.get(path[k]) {
            Some(Node::Loop(_, inner)) => nodes = inner.as_slice(),
            _ => return count,
        }
    }
    count
}

/// Adds all turns from the places that lead by these children; where there is none, those of the beginning.
fn add_behind<'g>(
    turns: &mut Vec<KnownTurn<'g>>,
    nodes: &'g [Node],
    path: &[usize],
) -> Result<(), NoMemory>
    ensures { OnOk result (Adds 0 (IsKnown 0 path.now (BehindSilent (nodes_view nodes.entry.now))) (StandsAt path.now)
        (λ s p. fit_behind s (nodes_view nodes.entry.now) p) turns.old.items turns.new.items) }
{
    if path.is_empty() {
        add_starts(turns, nodes, 0, 0, true)?;
    } else {
        add_among(turns, nodes, false, 0, path)?;
    }
    Ok(())
}

/// The turns from the places that lead by these children, if there are few.
fn station_of<'g>(
    alloc: Global,
    nodes: &'g [Node],
    path: &[usize],
) -> Result<Option<Station<'g>>, NoMemory>
    ensures { IfOk result (IsStationIfAny (nodes_view nodes.entry.now)) }
{
    let count = turn_count(nodes, path);
    if count > MOST {
        return Ok(None);
    }
    let mut turns = Vec::with_capacity(alloc, count)?;
    add_behind(&mut turns, nodes, path)?;
    let mut own = Vec::new(alloc);
    own.extend_from_slice(path)?;
    Ok(Some(Station { path: own, turns }))
}

/// Adds a station for each node, parents first; none of a loop. The path leads to the nodes, and is longer after.
fn add_stations<'g>(
    alloc: Global,
    stations: &mut Vec<Option<Station<'g>>>,
    top: &'g [Node],
    nodes: &'g [Node],
    path: &mut Vec<usize>,
) -> Result<(), NoMemory>
    requires { AreStations (nodes_view top.now) stations.old.items }
    ensures { OnOk result (AreStations (nodes_view top.entry.now) stations.new.items) }
{
    let depth = path.len();
    for k in 0..nodes.len() {
        path.truncate(depth);
        path.push(k)?;
        match &nodes[k] {
            Node::Segment(_) => stations.push(station_of(alloc, top, path.as_slice())?)?,
            Node::Loop(_, inner) => {
                stations.push(None)?;
                add_stations(alloc, stations, top, inner.as_slice(), path)?;
            }
        }
    }
    Ok(())
}

/// The stations of a guide's nodes: at 0 of the beginning, and at each slot's number of its places.
pub(crate) fn stations_of<'g>(
    alloc: Global,
    nodes: &'g [Node],
) -> Result<Vec<Option<Station<'g>>>, NoMemory>
    ensures { IfOk result (λ stations. AreStations (nodes_view nodes.entry.now) stations.items) }
{
    let mut stations = Vec::new(alloc);
    let mut path = Vec::new(alloc);
    stations.push(station_of(alloc, nodes, path.as_slice())?)?;
    add_stations(alloc, &mut stations, nodes, nodes, &mut path)?;
    Ok(stations)
}

/// Whether a place leads by these children.
#[inline]
pub(crate) fn leads_by(path: &[usize], last: &[Step]) -> bool
    ensures { OnTrue result (StandsAt path.now (place_view last.now)) }
{
    if path.len() != last.len() {
        return false;
    }
    for k in 0..path.len() {
        if path[k] != last[k].child {
            return false;
        }
    }
    true
}

/// Whether a segment fits the slot of a turn.
#[inline]
pub(crate) fn fits_known(known: &KnownTurn, number: u32, seg: &SegView) -> bool
    requires segment { HasNumber (elements_of seg.now) number }
    requires numbered { known.now.number ≡ id_number known.now.slot.now.id }
    ensures { result ≡ fits known.now.slot.now (elements_of seg.now) }
{
    if known.number != number {
        return false;
    }
    fits_with(known.slot, number, seg)
}

/// The use to which a turn goes from the last place.
#[inline]
fn use_behind(known: &KnownTurn, last: &[Step], uses: u64) -> u64
    requires room { AllByRecursion (λ s. s.use_no < uses) last.now }
    requires few { uses + 1 < 2 ^ 64 }
    requires further { known.now.again ≡ true → known.now.depth < length last.now }
    ensures is { result ≡ next_use 0 (place_view last.now) known.now }
    ensures uses { result ≤ uses }
{
    if known.again {
        last[known.depth].use_no + 1
    } else {
        0
    }
}

/// A turn that is known, from the last place.
#[inline]
pub(crate) fn turn_by<'g>(known: &KnownTurn<'g>, last: &[Step], uses: u64) -> NextTurn<'g>
    requires room { AllByRecursion (λ s. s.use_no < uses) last.now }
    requires few { uses + 1 < 2 ^ 64 }
    requires further { known.now.again ≡ true → known.now.depth < length last.now }
    ensures turn { turned (place_view last.now) result.turn ≡ led 0 (place_view last.now) known.now }
    ensures depth { result.turn.depth ≡ known.now.depth }
    ensures uses { result.turn.use_no ≤ uses }
    ensures silent { OnTrue result.silent (next_use 0 (place_view last.now) known.now < known.now.quiet) }
{
    let use_no = use_behind(known, last, uses);
    NextTurn {
        turn: Turn {
            depth: known.depth,
            child: known.child,
            use_no,
            into_loop: known.into_loop,
            slot: known.slot,
        },
        silent: use_no < known.quiet,
    }
}
