ghost use Rattle.std.specs.Prelude.{◌≡◌, ◌+◌, ◌<◌, ◌≤◌, ◌^◌, ◌∷◌, ◌++◌, ℕ, List, OnOk, IfOk, map, length};
ghost use Rattle.std.specs.List.{AllByRecursion};
ghost use Rattle.x12_segs.specs.Words.{elements_of};
ghost use Rattle.guide_tree.specs.Words.{IsAccepted, Segment, placing_of, structure_faults, end_faults, guide_of, nodes_view};
ghost use Rattle.loop_match.specs.Given.{given_of};
ghost use Rattle.loop_match.specs.Steps.{place_view, last_of, marks_view, given_behind, IsWalk};
ghost use Rattle.loop_match.specs.Passed.{found_behind};

use crate::found::Found;
use crate::next::Step;
use crate::next_place::NextPlace;
use crate::steps::{end, step_by};
use crate::walk::{Walk, place_one};
use guide_tree::Guide;
use hub_kinds::NoMemory;
use std::alloc::Global;
use x12_segs::SegView;

/// The places that were given so far, and what showed on the way.
#[derive(Drop)]
pub struct Pass<'a> {
    pub walk: Walk<'a>,
    /// The last place that was given before the segment.
    pub before: Vec<Step>,
    pub found: Found<'a>,
}

fn keep(before: &mut Vec<Step>, last: &[Step]) -> Result<(), NoMemory>
    ensures { OnOk result (before.new.items ≡ last.now) }
{
    before.clear();
    before.extend_from_slice(last)?;
    Ok(())
}

/// Gives the segment its place, and finds what shows at it.
fn pass_one<'a, 'g: 'a, N: NextPlace<'g>>(
    pass: &mut Pass<'a>,
    next: &N,
    index: u64,
    seg: &SegView<'a>,
) -> Result<(), NoMemory>
    requires walk { IsWalk pass.old.walk index }
    requires few { index + 2 < 2 ^ 64 }
    ensures walk { OnOk result (IsWalk pass.new.walk (index + 1)) }
    ensures given { OnOk result ((body : List Segment) → given_behind (nodes_view (N.guide next.entry.now).nodes.items) pass.new.walk body
        ≡ given_behind (nodes_view (N.guide next.entry.now).nodes.items) pass.old.walk (elements_of seg.now ∷ body)) }
    ensures found { OnOk result ((end : ℕ) (body : List Segment)
        → found_behind (guide_of (N.guide next.entry.now)) end (index + 2 + 1) pass.new body
        ≡ found_behind (guide_of (N.guide next.entry.now)) end (index + 2) pass.old (elements_of seg.now ∷ body)) }
{
    keep(&mut pass.before, pass.walk.last.as_slice())?;
    if place_one(&mut pass.walk, next, index, seg)? {
        step_by(
            &mut pass.found,
            index + 2,
            next,
            pass.before.as_slice(),
            pass.walk.last.as_slice(),
        )
    } else {
        pass.found.stray(index + 2, next, seg)
    }
}

/// Finds what shows after the body.
fn pass_end<'a>(pass: &mut Pass<'a>, guide: &'a Guide, at: u64) -> Result<(), NoMemory>
    requires { AllByRecursion (λ s. s.use_no + 1 < 2 ^ 64) pass.old.walk.last.items }
    ensures accepted { IsAccepted guide.now }
    ensures walk { pass.new.walk ≡ pass.old.walk }
    ensures found { OnOk result (pass.new.found ≡ pass.old.found
        ++ end_faults at (nodes_view guide.now.nodes.items) (last_of (place_view pass.old.walk.last.items))) }
{
    let nodes = guide.rows().nodes.as_slice();
    end(&mut pass.found, at, nodes, pass.walk.last.as_slice())
}

/// Goes over a body.
pub(crate) fn pass_all<'a, 'g: 'a, N: NextPlace<'g>>(
    alloc: Global,
    segs: &[SegView<'a>],
    next: &N,
) -> Result<Pass<'a>, NoMemory>
    ensures accepted { OnOk result (IsAccepted (N.guide next.now)) }
    ensures within { IfOk result (λ p. AllByRecursion (λ m. m.start + m.depth ≤ length p.walk.steps.items) p.walk.marks.items) }
    ensures given { IfOk result (λ p. marks_view p.walk.steps.items p.walk.marks.items
        ≡ given_of (nodes_view (N.guide next.now).nodes.items) (map elements_of segs.now)) }
    ensures found { IfOk result (λ p. p.found ≡ structure_faults (guide_of (N.guide next.now)) (length segs.now + 2)
        (map elements_of segs.now) (placing_of (nodes_view (N.guide next.now).nodes.items) (map elements_of segs.now))) }
{
    let walk = Walk {
        steps: Vec::with_capacity(alloc, segs.len())?,
        marks: Vec::with_capacity(alloc, segs.len())?,
        last: Vec::new(alloc),
    };
    let mut pass = Pass {
        walk,
        before: Vec::new(alloc),
        found: Found::new(alloc),
    };
    for i in 0..segs.len() {
        pass_one(&mut pass, next, i as u64, &segs[i])?;
    }
    pass_end(&mut pass, next.guide(), segs.len() as u64 + 2)?;
    Ok(pass)
}
