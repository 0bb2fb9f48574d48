use crate::next::{Step, Turn, turn_from};
use crate::stray::stray_code;
use guide_tree::Guide;
use hub_kinds::SegmentCode;
use x12_segs::SegView;

/// What finds, by a guide, the place that a body's next segment is given (X12.6, order of segments).
pub trait NextPlace<'g> {
    ghost use Rattle.std.specs.Prelude.{◌≡◌, ◌+◌, ◌<◌, ◌≤◌, ◌^◌, ℕ, [], length, option_map, IfSome};
    ghost use Rattle.std.specs.Bool.{OnTrue};
    ghost use Rattle.std.specs.List.{AllByRecursion};
    ghost use Rattle.x12_segs.specs.Words.{elements_of};
    ghost use Rattle.guide_tree.specs.declared.rows.GuideRows.{GuideRows};
    ghost use Rattle.guide_tree.specs.Words.{fit_behind, guide_of, nodes_view, step_faults, stray_code};
    ghost use Rattle.loop_match.specs.Steps.{last_of, place_view, turned};

    /// The guide.
    ghost guide: { Self → GuideRows };

    /// The guide.
    fn guide(&self) -> &'g Guide
        ensures { result.now ≡ guide self.now };

    /// The turn from the last place, or from the beginning where it has no step, to the place that the segment is given. The uses
    /// of the last place are fewer than `uses`.
    fn turn_from(&self, last: &[Step], uses: u64, seg: &SegView) -> Option<Turn<'g>>
        requires room { AllByRecursion (λ s. s.use_no < uses) last.now }
        requires few { uses + 1 < 2 ^ 64 }
        ensures turn { option_map (turned (place_view last.now)) result
            ≡ fit_behind (elements_of seg.now) (nodes_view (guide self.now).nodes.items) (place_view last.now) }
        ensures depth { IfSome result (λ t. t.depth ≤ length last.now) }
        ensures uses { IfSome result (λ t. t.use_no ≤ uses) };

    /// Why a segment has no place (999 guide, IK304).
    fn stray_code(&self, seg: &SegView) -> SegmentCode
        ensures { result ≡ stray_code (guide_of (guide self.now)) (elements_of seg.now) };

    /// Whether surely nothing is reported at a segment that is placed. The last place has no step at the beginning.
    fn is_silent(&self, last: &[Step], next: &[Step]) -> bool
        requires { AllByRecursion (λ s. s.use_no + 1 < 2 ^ 64) last.now }
        ensures { OnTrue result ((at : ℕ)
            → step_faults at (nodes_view (guide self.now).nodes.items) (last_of (place_view last.now)) (place_view next.now) ≡ []) };
}

/// The next place by the guide's nodes, one after another.
#[derive(Clone, Copy)]
pub struct ByNodes<'g> {
    pub guide: &'g Guide,
}

impl<'g> NextPlace<'g> for ByNodes<'g> {
    ghost guide = { λ it. it.guide.now };

    fn guide(&self) -> &'g Guide {
        self.guide
    }

    fn turn_from(&self, last: &[Step], uses: u64, seg: &SegView) -> Option<Turn<'g>> {
        turn_from(self.guide.rows().nodes.as_slice(), last, uses, seg)
    }

    fn stray_code(&self, seg: &SegView) -> SegmentCode {
        stray_code(self.guide, seg)
    }

    fn is_silent(&self, _last: &[Step], _next: &[Step]) -> bool {
        false
    }
}
