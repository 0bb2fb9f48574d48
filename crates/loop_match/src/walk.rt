ghost use Rattle.std.specs.Prelude.{◌≡◌, ◌+◌, ◌<◌, ◌^◌, ◌++◌, ◌∷◌, List, OnOk, IfOk};
ghost use Rattle.x12_segs.specs.Words.{elements_of};
ghost use Rattle.guide_tree.specs.Words.{Segment, nodes_view};
ghost use Rattle.loop_match.specs.Steps.{place_view, turned, given_behind, IsWalk, HasGone};

use crate::next::{Step, Turn};
use crate::next_place::NextPlace;
use guide_tree::Slot;
use hub_kinds::NoMemory;
use x12_segs::SegView;

/// Where the steps of a segment's place begin, how many they are, and the slot; a stray has none.
#[derive(Clone, Copy)]
pub struct Mark<'g> {
    pub start: usize,
    pub depth: usize,
    pub slot: Option<&'g Slot>,
}

/// The places that were given so far, end to end.
#[derive(Drop)]
pub struct Walk<'g> {
    pub steps: Vec<Step>,
    pub marks: Vec<Mark<'g>>,
    /// The last place that was given; no step at all at the beginning.
    pub last: Vec<Step>,
}

/// Goes to the place of a turn.
fn go(last: &mut Vec<Step>, turn: &Turn) -> Result<(), NoMemory>
    ensures { OnOk result (place_view last.new.items ≡ (turned (place_view last.old.items) turn.now).place) }
{
    last.truncate(turn.depth);
    last.push(Step {
        child: turn.child,
        use_no: turn.use_no,
    })?;
    if turn.into_loop {
        last.push(Step {
            child: 0,
            use_no: 0,
        })?;
    }
    Ok(())
}

/// Gives the segment its place and its slot, and says whether there is one.
pub(crate) fn place_one<'a, 'g: 'a, N: NextPlace<'g>>(
    walk: &mut Walk<'a>,
    next: &N,
    uses: u64,
    seg: &SegView,
) -> Result<bool, NoMemory>
    requires walk { IsWalk walk.old uses }
    requires few { uses + 1 < 2 ^ 64 }
    ensures gone { IfOk result (λ placed. HasGone (nodes_view (N.guide next.entry.now).nodes.items) walk.old.last.items walk.new.last.items
        (elements_of seg.now) placed) }
    ensures walk { OnOk result (IsWalk walk.new (uses + 1)) }
    ensures given { OnOk result ((body : List Segment) → given_behind (nodes_view (N.guide next.entry.now).nodes.items) walk.new body
        ≡ given_behind (nodes_view (N.guide next.entry.now).nodes.items) walk.old (elements_of seg.now ∷ body)) }
{
    match next.turn_from(walk.last.as_slice(), uses, seg) {
        None => {
            walk.marks.push(Mark {
                start: 0,
                depth: 0,
                slot: None,
            })?;
            Ok(false)
        }
        Some(turn) => {
            go(&mut walk.last, &turn)?;
            let place = walk.last.as_slice();
            let start = walk.steps.as_slice().len();
            let depth = place.len();
            walk.steps.extend_from_slice(place)?;
            walk.marks.push(Mark {
                start,
                depth,
                slot: Some(turn.slot),
            })?;
            Ok(true)
        }
    }
}
