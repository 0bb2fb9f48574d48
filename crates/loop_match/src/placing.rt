ghost use Rattle.std.specs.Prelude.{◌≡◌, ◌↔◌, ◌+◌, length, map, None, IfOk};
ghost use Rattle.std.specs.List.{Contains};
ghost use Rattle.hub_kinds.specs.Words.{AreRising};
ghost use Rattle.hub_kinds.specs.declared.fault.Fault.{Fault};
ghost use Rattle.x12_segs.specs.Words.{elements_of};
ghost use Rattle.guide_tree.specs.Words.{placing_of, IsPlacing, slot_given, IsStructureFault, guide_of, nodes_view};
ghost use Rattle.loop_match.specs.Given.{place_in, slot_in};

use crate::next::Step;
use crate::next_place::{ByNodes, NextPlace};
use crate::pass::pass_all;
use crate::walk::Walk;
use guide_tree::{Guide, Slot};
use hub_kinds::{Faults, NoMemory};
use std::alloc::Global;
use std::marker::Model;
use x12_segs::SegView;

/// The place and the slot of each segment of a set's body, and the structural faults of the body.
#[derive(Drop)]
pub struct Placing<'a> {
    walk: Walk<'a>,
    faults: Faults<'a>,
}

impl<'a> Model for Placing<'a> {
    ghost use Rattle.std.specs.Prelude.{length, ◌+◌, ◌≤◌};
    ghost use Rattle.std.specs.List.{AllByRecursion};
    ghost use Rattle.loop_match.specs.Given.{Placed};
    ghost use Rattle.loop_match.specs.Steps.{marks_view};

    ghost Value = { Placed };

    ghost view = { λ p. record { given = marks_view p.walk.steps.items p.walk.marks.items; faults = p.faults } };

    ghost invariant = { λ p. AllByRecursion (λ m. m.start + m.depth ≤ length p.walk.steps.items) p.walk.marks.items };
}

impl<'a> Placing<'a> {
    ghost use Rattle.std.specs.Prelude.{◌≡◌, None, length, option_map, slice_index_or};
    ghost use Rattle.loop_match.specs.Given.{place_in, slot_in};
    ghost use Rattle.loop_match.specs.Steps.{place_view};

    /// How many segments there are.
    pub fn len(&self) -> usize
        ensures { result ≡ length self.now.given }
    {
        self.walk.marks.as_slice().len()
    }

    /// The slot of a segment, by its index in the body; none for a stray.
    pub fn slot(&self, index: usize) -> Option<&'a Slot>
        ensures { option_map (λ s. s.now) result ≡ slot_in (slice_index_or self.now.given index None) }
    {
        match self.walk.marks.as_slice().get(index) {
            None => None,
            Some(mark) => mark.slot,
        }
    }

    /// The place of a segment, step by step from the guide's own nodes; none for a stray.
    pub fn place(&self, index: usize) -> Option<&[Step]>
        ensures { option_map (λ p. place_view p.now) result ≡ place_in (slice_index_or self.now.given index None) }
    {
        match self.walk.marks.as_slice().get(index) {
            None => None,
            Some(mark) => match mark.slot {
                None => None,
                Some(_) => Some(&self.walk.steps[mark.start..mark.start + mark.depth]),
            },
        }
    }

    /// The structural faults by position, code and slot; a position is a segment's number in the set, ST being 1.
    pub fn faults(&self) -> &Faults<'a>
        ensures { result.now ≡ self.now.faults }
    {
        &self.faults
    }

    /// The faults, given away.
    pub fn into_faults(self) -> Faults<'a>
        ensures { result ≡ self.entry.faults }
    {
        self.faults
    }
}

/// What `place_all` gives, by what finds the next place. The only error is out of memory.
pub fn place_by<'a, 'g: 'a, N: NextPlace<'g>>(
    alloc: Global,
    segs: &[SegView<'a>],
    next: &N,
) -> Result<Placing<'a>, NoMemory>
    ensures places { IfOk result (λ p. map place_in p.given
        ≡ placing_of (nodes_view (N.guide next.now).nodes.items) (map elements_of segs.now)) }
    ensures placing { IfOk result (λ p.
        IsPlacing (nodes_view (N.guide next.now).nodes.items) None (map elements_of segs.now) (map place_in p.given)) }
    ensures slots { IfOk result (λ p. map slot_in p.given
        ≡ map (slot_given (nodes_view (N.guide next.now).nodes.items))
        (placing_of (nodes_view (N.guide next.now).nodes.items) (map elements_of segs.now))) }
    ensures faults { IfOk result (λ p. (f : Fault) → Contains p.faults f
        ↔ IsStructureFault (guide_of (N.guide next.now)) (map elements_of segs.now)
        (placing_of (nodes_view (N.guide next.now).nodes.items) (map elements_of segs.now)) (length segs.now + 2) f) }
    ensures rising { IfOk result (λ p. AreRising p.faults) }
{
    let pass = pass_all(alloc, segs, next)?;
    Ok(Placing {
        walk: pass.walk,
        faults: pass.found.into_faults().in_order(),
    })
}

/// The place and the slot of each segment of a body, and exactly its structural faults, each once and in their order;
/// the body's end is after its last segment. The only error is out of memory.
pub fn place_all<'a>(
    alloc: Global,
    segs: &[SegView<'a>],
    guide: &'a Guide,
) -> Result<Placing<'a>, NoMemory>
    ensures places { IfOk result (λ p. map place_in p.given
        ≡ placing_of (nodes_view guide.now.nodes.items) (map elements_of segs.now)) }
    ensures placing { IfOk result (λ p.
        IsPlacing (nodes_view guide.now.nodes.items) None (map elements_of segs.now) (map place_in p.given)) }
    ensures slots { IfOk result (λ p. map slot_in p.given
        ≡ map (slot_given (nodes_view guide.now.nodes.items)) (placing_of (nodes_view guide.now.nodes.items) (map elements_of segs.now))) }
    ensures faults { IfOk result (λ p. (f : Fault) → Contains p.faults f
        ↔ IsStructureFault (guide_of guide.now) (map elements_of segs.now)
        (placing_of (nodes_view guide.now.nodes.items) (map elements_of segs.now)) (length segs.now + 2) f) }
    ensures rising { IfOk result (λ p. AreRising p.faults) }
{
    place_by(alloc, segs, &ByNodes { guide })
}
