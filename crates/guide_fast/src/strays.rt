ghost use Rattle.std.specs.Prelude.{◌≡◌, ◌++◌, OnOk, IfOk};
ghost use Rattle.std.specs.List.{list_any};
ghost use Rattle.x12_segs.specs.Words.{elements_of};
ghost use Rattle.guide_tree.specs.Words.{nodes_view};
ghost use Rattle.guide_fast.specs.Listed.{Knows};
ghost use Rattle.guide_fast.specs.Slots.{any_listed, fits_at, slots_of, slot_ids, lent_slots};
ghost use Rattle.guide_fast.specs.FirstPick.{HasValue, slot_pick, slot_picks};
ghost use Rattle.guide_fast.specs.Keys.{slot_keys, lent_reach, Reaches};
ghost use Rattle.guide_tree.specs.Words.{fits};

use crate::first_pick::{Asked, FirstPick, asked_id, may_pick, slot_pick};
use crate::id_number::number_of;
use crate::index::TextIndex;
use crate::keys::{slot_key, slots_reach};
use guide_tree::{Guide, Node, Slot};
use hub_kinds::{NoMemory, SegmentCode, Text};
use loop_match::{fits, text_at};
use std::alloc::Global;
use std::marker::Model;
use x12_segs::SegView;

/// The ids that a guide knows, by which it is said why a segment has no place. Contracts see the guide.
#[derive(Drop)]
pub struct Strays<'g> {
    guide: &'g Guide,
    slots: Vec<&'g Slot>,
    /// Their first picks.
    picks: Vec<FirstPick>,
    ids: TextIndex<'g>,
    /// The places of each text by which they are looked for.
    keys: TextIndex<'g>,
    /// How many of a segment's first texts these are.
    reach: usize,
    dictionary: TextIndex<'g>,
}

impl<'g> Model for Strays<'g> {
    ghost use Rattle.std.specs.Prelude.{◌≡◌};
    ghost use Rattle.guide_tree.specs.declared.rows.GuideRows.{GuideRows};
    ghost use Rattle.guide_tree.specs.contracts.node.Node as node;
    ghost use Rattle.guide_tree.specs.Words.{nodes_view};
    ghost use Rattle.std.specs.Coded.{codes};
    ghost use Rattle.guide_fast.specs.Listed.{Knows};
    ghost use Rattle.guide_fast.specs.Slots.{slots_of, slot_ids, lent_slots};
    ghost use Rattle.guide_fast.specs.FirstPick.{slot_picks};
    ghost use Rattle.guide_fast.specs.Keys.{slot_keys, lent_reach, Reaches};

    ghost Value = { GuideRows };

    ghost coded = { Prim.hlevel (codes, node.the_row.coded) };

    ghost view = { λ s. s.guide.now };

    ghost invariant = { λ s. (lent_slots s.slots.items ≡ slots_of (nodes_view s.guide.now.nodes.items))
        × Knows s.ids.places (slot_ids (lent_slots s.slots.items)) × Knows s.dictionary.places s.guide.now.head.dictionary
        × (s.picks.items ≡ slot_picks (lent_slots s.slots.items)) × Knows s.keys.places (slot_keys (lent_slots s.slots.items))
        × Reaches lent_reach s.reach s.slots.items };
}

impl<'g> Strays<'g> {
    ghost use Rattle.std.specs.Prelude.{◌≡◌, IfOk};
    ghost use Rattle.std.specs.Str.{bytes_eq};
    ghost use Rattle.x12_segs.specs.Words.{elements_of};
    ghost use Rattle.hub_kinds.specs.Words.{contains_text};
    ghost use Rattle.guide_tree.specs.Words.{any_slot, fits, guide_of, nodes_view, stray_code};

    /// The strays of `guide`.
    pub fn of(alloc: Global, guide: &'g Guide) -> Result<Strays<'g>, NoMemory>
        ensures { IfOk result (λ s. s ≡ guide.now) }
    {
        let mut slots = Vec::new(alloc);
        add_slots(&mut slots, guide.rows().nodes.as_slice())?;
        let picks = picks_of(alloc, slots.as_slice())?;
        let ids = ids_of(alloc, slots.as_slice())?;
        let keys = keys_of(alloc, slots.as_slice())?;
        let reach = slots_reach(slots.as_slice());
        let dictionary = texts_of(alloc, guide.rows().head.dictionary.as_slice())?;
        Ok(Strays {
            guide,
            slots,
            picks,
            ids,
            keys,
            reach,
            dictionary,
        })
    }

    /// Whether some slot has the id.
    fn is_id_known(&self, id: &[u8]) -> bool
        ensures { result ≡ any_slot (λ slot. bytes_eq slot.id id.now) (nodes_view self.now.nodes.items) }
    {
        self.ids.contains(id)
    }

    /// Whether the segment fits some slot.
    fn fits_somewhere(&self, seg: &SegView) -> bool
        ensures { result ≡ any_slot (λ slot. fits slot (elements_of seg.now)) (nodes_view self.now.nodes.items) }
    {
        let (slots, picks) = (self.slots.as_slice(), self.picks.as_slice());
        any_looked_up(slots, picks, &self.keys, self.reach, seg)
    }

    fn is_in_dictionary(&self, id: &[u8]) -> bool
        ensures { result ≡ contains_text self.now.head.dictionary id.now }
    {
        self.dictionary.contains(id)
    }

    /// Why a segment has no place (999 guide, IK304).
    pub fn code(&self, seg: &SegView) -> SegmentCode
        ensures { result ≡ stray_code (guide_of self.now) (elements_of seg.now) }
    {
        if self.is_id_known(seg.id()) {
            if self.fits_somewhere(seg) {
                SegmentCode::OutOfSequence
            } else {
                SegmentCode::UnexpectedSegment
            }
        } else if self.is_in_dictionary(seg.id()) {
            SegmentCode::NotInSet
        } else {
            SegmentCode::UnrecognizedSegment
        }
    }
}

/// Adds the segments' slots, in their order.
fn add_slots<'g>(slots: &mut Vec<&'g Slot>, nodes: &'g [Node]) -> Result<(), NoMemory>
    ensures { OnOk result (lent_slots slots.new.items ≡ lent_slots slots.old.items ++ slots_of (nodes_view nodes.entry.now)) }
{
    for node in nodes {
        match node {
            Node::Segment(slot) => slots.push(slot)?,
            Node::Loop(_, inner) => add_slots(slots, inner)?,
        }
    }
    Ok(())
}

fn ids_of<'g>(alloc: Global, slots: &[&'g Slot]) -> Result<TextIndex<'g>, NoMemory>
    ensures { IfOk result (λ index. Knows index.places (slot_ids (lent_slots slots.now))) }
{
    let mut index = TextIndex::new(alloc);
    for k in 0..slots.len() {
        let slot: &'g Slot = slots[k];
        index.add(slot.id.as_slice(), k)?;
    }
    Ok(index)
}

fn keys_of<'g>(alloc: Global, slots: &[&'g Slot]) -> Result<TextIndex<'g>, NoMemory>
    ensures { IfOk result (λ index. Knows index.places (slot_keys (lent_slots slots.now))) }
{
    let mut index = TextIndex::new(alloc);
    for k in 0..slots.len() {
        let slot: &'g Slot = slots[k];
        index.add(slot_key(slot), k)?;
    }
    Ok(index)
}

fn picks_of(alloc: Global, slots: &[&Slot]) -> Result<Vec<FirstPick>, NoMemory>
    ensures { IfOk result (λ picks. picks.items ≡ slot_picks (lent_slots slots.now)) }
{
    let mut picks = Vec::new(alloc);
    for k in 0..slots.len() {
        picks.push(slot_pick(slots[k]))?;
    }
    Ok(picks)
}

fn texts_of<'g>(alloc: Global, texts: &'g [Text]) -> Result<TextIndex<'g>, NoMemory>
    ensures { IfOk result (λ index. Knows index.places texts.now) }
{
    let mut index = TextIndex::new(alloc);
    for k in 0..texts.len() {
        index.add(texts[k].as_slice(), k)?;
    }
    Ok(index)
}

/// Whether the segment fits some of the slots, by its first elements.
fn any_looked_up(
    slots: &[&Slot],
    picks: &[FirstPick],
    keys: &TextIndex,
    reach: usize,
    seg: &SegView,
) -> bool
    requires picks { picks.now ≡ slot_picks (lent_slots slots.now) }
    requires keys { Knows keys.now.places (slot_keys (lent_slots slots.now)) }
    requires reach { Reaches lent_reach reach slots.now }
    ensures { result ≡ list_any (λ slot. fits slot (elements_of seg.now)) (lent_slots slots.now) }
{
    for position in 0..reach {
        if any_fits(slots, picks, keys.places(text_at(seg, position)), seg) {
            return true;
        }
    }
    false
}

/// Whether the segment fits some of the slots at these places.
fn any_fits(slots: &[&Slot], picks: &[FirstPick], places: &[usize], seg: &SegView) -> bool
    requires { picks.now ≡ slot_picks (lent_slots slots.now) }
    ensures { result ≡ any_listed (elements_of seg.now) (lent_slots slots.now) places.now }
{
    let mut asked = asked_id(number_of(seg), seg);
    for i in 0..places.len() {
        if fits_at(slots, picks, places[i], &mut asked, seg) {
            return true;
        }
    }
    false
}

fn fits_at(
    slots: &[&Slot],
    picks: &[FirstPick],
    place: usize,
    asked: &mut Asked,
    seg: &SegView,
) -> bool
    requires picks { picks.now ≡ slot_picks (lent_slots slots.now) }
    requires asked { HasValue (elements_of seg.now) asked.old }
    ensures asked { HasValue (elements_of seg.now) asked.new }
    ensures fits { result ≡ fits_at (elements_of seg.now) (lent_slots slots.now) place }
{
    match slots.get(place) {
        None => false,
        Some(slot) => fits_picked(slot, picks[place], asked, seg),
    }
}

/// Whether the segment fits a slot with a first pick.
fn fits_picked(slot: &Slot, pick: FirstPick, asked: &mut Asked, seg: &SegView) -> bool
    requires pick { pick ≡ slot_pick slot.now }
    requires asked { HasValue (elements_of seg.now) asked.old }
    ensures asked { HasValue (elements_of seg.now) asked.new }
    ensures fits { result ≡ fits slot.now (elements_of seg.now) }
{
    if !may_pick(pick, asked, seg) {
        return false;
    }
    fits(slot, seg)
}
