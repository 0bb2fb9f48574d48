use crate::children::Children;
use crate::id_number::number_of;
use crate::next::turn_behind;
use crate::silent::{is_end_silent, is_silent};
use crate::station::{NextTurn, Station, fits_known, leads_by, stations_of, turn_by};
use crate::strays::Strays;
use crate::tables::tables_of;
use elem_rules::{FlatSlot, SlotTables};
use guide_tree::{Guide, Slot};
use hub_kinds::{NoMemory, SegmentCode};
use loop_match::{Step, Turn};
use std::alloc::Global;
use std::marker::Model;
use x12_segs::SegView;

/// A guide with tables by which the places of a set's segments are found. Contracts see the guide.
#[derive(Drop)]
pub struct FastGuide<'g> {
    guide: &'g Guide,
    tables: Vec<Children<'g>>,
    strays: Strays<'g>,
    slots: SlotTables<'g>,
    /// At each slot's number the turns from its places, where they are few; at 0 those of the beginning.
    stations: Vec<Option<Station<'g>>>,
}

impl<'g> Model for FastGuide<'g> {
    ghost use Rattle.std.specs.Prelude.{◌≡◌};
    ghost use Rattle.guide_tree.specs.declared.rows.GuideRows.{GuideRows};
    ghost use Rattle.guide_tree.specs.contracts.node.Node as node;
    ghost use Rattle.guide_tree.specs.Words.{nodes_view};
    ghost use Rattle.std.specs.Coded.{codes};
    ghost use Rattle.guide_fast.specs.Tables.{trees_in, tables_of};
    ghost use Rattle.guide_fast.specs.Ahead.{AreStations};

    ghost Value = { GuideRows };

    ghost coded = { Prim.hlevel (codes, node.the_row.coded) };

    ghost view = { λ f. f.guide.now };

    ghost invariant = { λ f. (trees_in f.tables.items ≡ tables_of (nodes_view f.guide.now.nodes.items)) × (f.strays ≡ f.guide.now)
        × (f.slots ≡ f.guide.now) × AreStations (nodes_view f.guide.now.nodes.items) f.stations.items };
}

impl<'g> FastGuide<'g> {
    ghost use Rattle.std.specs.Prelude.{◌≡◌, ◌+◌, ◌<◌, ◌≤◌, ◌^◌, ℕ, [], length, option_map, IfOk, IfSome};
    ghost use Rattle.std.specs.List.{AllByRecursion};
    ghost use Rattle.x12_segs.specs.Words.{elements_of};
    ghost use Rattle.guide_tree.specs.Words.{nodes_view, fit_behind, guide_of, step_faults, end_faults, stray_code};
    ghost use Rattle.loop_match.specs.Steps.{last_of, place_view, turned};
    ghost use Rattle.elem_rules.specs.Flat.{IsFlatSlot};
    ghost use Rattle.elem_rules.specs.NodeSlots.{IsSlotOf};
    ghost use Rattle.guide_fast.specs.Silent.{are_none};
    ghost use Rattle.guide_fast.specs.Ahead.{IsStation, StandsAt};
    ghost use Rattle.std.specs.Bool.{OnTrue};

    /// A fast guide made of `guide`. The only error is out of memory.
    pub fn of(alloc: Global, guide: &'g Guide) -> Result<FastGuide<'g>, NoMemory>
        ensures { IfOk result (λ f. f ≡ guide.now) }
    {
        let tables = tables_of(alloc, guide.rows().nodes.as_slice())?;
        let strays = Strays::of(alloc, guide)?;
        let slots = SlotTables::of(alloc, guide)?;
        let stations = stations_of(alloc, guide.rows().nodes.as_slice())?;
        Ok(FastGuide {
            guide,
            tables,
            strays,
            slots,
            stations,
        })
    }

    /// The guide.
    pub fn guide(&self) -> &'g Guide
        ensures { result.now ≡ self.now }
    {
        self.guide
    }

    /// The turn from the last place, or from the beginning where it has no step, to the place that the segment is given.
    pub fn turn_from(&self, last: &[Step], uses: u64, seg: &SegView) -> Option<Turn<'g>>
        requires room { AllByRecursion (λ s. s.use_no < uses) last.now }
        requires few { uses + 1 < 2 ^ 64 }
        ensures turn { option_map (turned (place_view last.now)) result
            ≡ fit_behind (elements_of seg.now) (nodes_view self.now.nodes.items) (place_view last.now) }
        ensures depth { IfSome result (λ t. t.depth ≤ length last.now) }
        ensures uses { IfSome result (λ t. t.use_no ≤ uses) }
    {
        let _accepted = self.guide.rows();
        turn_behind(self.tables.as_slice(), &self.tables[0], last, uses, seg)
    }

    /// The station of a slot's number, if the last place leads by its children.
    #[inline]
    fn station_for(&self, slot: u32, last: &[Step]) -> Option<&Station<'g>>
        ensures { IfSome result (λ st. IsStation (nodes_view self.entry.now.nodes.items) st.now
            × StandsAt st.now.path.items (place_view last.now)) }
    {
        match self.stations.as_slice().get(slot as usize) {
            Some(Some(station)) if leads_by(station.path.as_slice(), last) => Some(station),
            _ => None,
        }
    }

    /// The turn from the last place, which leads by a station's children.
    #[inline]
    fn turn_at(
        &self,
        station: &Station<'g>,
        last: &[Step],
        uses: u64,
        seg: &SegView,
    ) -> Option<NextTurn<'g>>
        requires station { IsStation (nodes_view self.now.nodes.items) station.now }
        requires stands { StandsAt station.now.path.items (place_view last.now) }
        requires room { AllByRecursion (λ s. s.use_no < uses) last.now }
        requires few { uses + 1 < 2 ^ 64 }
        ensures turn { option_map (λ n. turned (place_view last.now) n.turn) result
            ≡ fit_behind (elements_of seg.now) (nodes_view self.now.nodes.items) (place_view last.now) }
        ensures depth { IfSome result (λ n. n.turn.depth ≤ length last.now) }
        ensures uses { IfSome result (λ n. n.turn.use_no ≤ uses) }
        ensures silent { IfSome result (λ n. OnTrue n.silent ((at : ℕ) → step_faults at (nodes_view self.now.nodes.items)
            (last_of (place_view last.now)) (turned (place_view last.now) n.turn).place ≡ [])) }
    {
        let number = number_of(seg);
        let turns = station.turns.as_slice();
        for k in 0..turns.len() {
            let known = &turns[k];
            if fits_known(known, number, seg) {
                return Some(turn_by(known, last, uses));
            }
        }
        None
    }

    /// The turn that `turn_from` gives, and whether surely nothing is reported at its place of the order and number of segments. It is
    /// found sooner where `slot` is the number of the last place's slot, or 0 at the beginning.
    #[inline]
    pub fn next_turn(
        &self,
        slot: u32,
        last: &[Step],
        uses: u64,
        seg: &SegView,
    ) -> Option<NextTurn<'g>>
        requires room { AllByRecursion (λ s. s.use_no < uses) last.now }
        requires few { uses + 1 < 2 ^ 64 }
        ensures turn { option_map (λ n. turned (place_view last.now) n.turn) result
            ≡ fit_behind (elements_of seg.now) (nodes_view self.now.nodes.items) (place_view last.now) }
        ensures depth { IfSome result (λ n. n.turn.depth ≤ length last.now) }
        ensures uses { IfSome result (λ n. n.turn.use_no ≤ uses) }
        ensures silent { IfSome result (λ n. OnTrue n.silent ((at : ℕ) → step_faults at (nodes_view self.now.nodes.items)
            (last_of (place_view last.now)) (turned (place_view last.now) n.turn).place ≡ [])) }
    {
        if let Some(station) = self.station_for(slot, last) {
            return self.turn_at(station, last, uses, seg);
        }
        match self.turn_from(last, uses, seg) {
            None => None,
            Some(turn) => Some(NextTurn {
                turn,
                silent: false,
            }),
        }
    }

    /// Why a segment has no place (999 guide, IK304): whether its id is one of the guide's slots, or else of its dictionary, and
    /// whether it fits some slot.
    pub fn stray_code(&self, seg: &SegView) -> SegmentCode
        ensures { result ≡ stray_code (guide_of self.now) (elements_of seg.now) }
    {
        self.strays.code(seg)
    }

    /// The rows and conditions of one of the guide's slots as few numbers.
    #[inline]
    pub fn flat_slot(&self, slot: &Slot) -> &FlatSlot
        requires { IsSlotOf (nodes_view self.now.nodes.items) slot.now }
        ensures { IsFlatSlot result.now slot.now }
    {
        self.slots.flat_slot(slot)
    }

    /// Whether nothing is reported at a segment that is placed: nothing needed is passed over or left with too few uses, and no use is
    /// past the greatest. The last place has no step at the beginning.
    pub fn is_silent(&self, last: &[Step], next: &[Step]) -> bool
        requires { AllByRecursion (λ s. s.use_no + 1 < 2 ^ 64) last.now }
        ensures { (at : ℕ) → result
            ≡ are_none (step_faults at (nodes_view self.now.nodes.items) (last_of (place_view last.now)) (place_view next.now)) }
    {
        let _accepted = self.guide.rows();
        is_silent(self.tables.as_slice(), &self.tables[0], last, next)
    }

    /// Whether nothing is reported after the body: nothing needed is left out or has too few uses. The last place has no step where no
    /// segment has one.
    pub fn is_end_silent(&self, last: &[Step]) -> bool
        requires { AllByRecursion (λ s. s.use_no + 1 < 2 ^ 64) last.now }
        ensures { (at : ℕ) → result
            ≡ are_none (end_faults at (nodes_view self.now.nodes.items) (last_of (place_view last.now))) }
    {
        let _accepted = self.guide.rows();
        is_end_silent(self.tables.as_slice(), &self.tables[0], last)
    }
}
