ghost use Rattle.std.specs.Prelude.{◌≡◌, ◌↔◌, ◌+◌, length, map, None, IfOk};
ghost use Rattle.std.specs.List.{Contains};
ghost use Rattle.hub_kinds.specs.Words.{AreRising};
ghost use Rattle.hub_kinds.specs.declared.fault.Fault.{Fault};
ghost use Rattle.x12_segs.specs.Words.{elements_of};
ghost use Rattle.guide_tree.specs.Words.{placing_of, IsPlacing, slot_given, IsStructureFault, guide_of, nodes_view};
ghost use Rattle.loop_match.specs.Given.{place_in, slot_in};

use crate::fast::FastGuide;
use guide_tree::Guide;
use hub_kinds::{NoMemory, SegmentCode};
use loop_match::{NextPlace, Placing, Step, Turn, place_by};
use std::alloc::Global;
use x12_segs::SegView;

impl<'g> NextPlace<'g> for FastGuide<'g> {
    ghost guide = { λ rows. rows };

    fn guide(&self) -> &'g Guide {
        FastGuide::guide(self)
    }

    fn turn_from(&self, last: &[Step], uses: u64, seg: &SegView) -> Option<Turn<'g>> {
        FastGuide::turn_from(self, last, uses, seg)
    }

    fn stray_code(&self, seg: &SegView) -> SegmentCode {
        FastGuide::stray_code(self, seg)
    }

    fn is_silent(&self, last: &[Step], next: &[Step]) -> bool {
        FastGuide::is_silent(self, last, next)
    }
}

/// The place and the slot of each segment of a body, and exactly its structural faults, each once and in their order, by a
/// compiled guide; the body's end is after its last segment. The only error is out of memory.
pub fn place_all_fast<'a, 'g: 'a>(
    alloc: Global,
    segs: &[SegView<'a>],
    fast: &FastGuide<'g>,
) -> Result<Placing<'a>, NoMemory>
    ensures places { IfOk result (λ p. map place_in p.given
        ≡ placing_of (nodes_view fast.now.nodes.items) (map elements_of segs.now)) }
    ensures placing { IfOk result (λ p.
        IsPlacing (nodes_view fast.now.nodes.items) None (map elements_of segs.now) (map place_in p.given)) }
    ensures slots { IfOk result (λ p. map slot_in p.given
        ≡ map (slot_given (nodes_view fast.now.nodes.items)) (placing_of (nodes_view fast.now.nodes.items) (map elements_of segs.now))) }
    ensures faults { IfOk result (λ p. (f : Fault) → Contains p.faults f
        ↔ IsStructureFault (guide_of fast.now) (map elements_of segs.now)
        (placing_of (nodes_view fast.now.nodes.items) (map elements_of segs.now)) (length segs.now + 2) f) }
    ensures rising { IfOk result (λ p. AreRising p.faults) }
{
    place_by(alloc, segs, fast)
}
