ghost use Rattle.std.specs.Prelude.{◌≡◌, ◌++◌, ◌+◌, ◌<◌, ◌^◌, ◌∷◌, [], OnOk};
ghost use Rattle.std.specs.List.{AllByRecursion};
ghost use Rattle.x12_segs.specs.Words.{elements_of};
ghost use Rattle.guide_tree.specs.Words.{step_faults, end_faults, nodes_view};
ghost use Rattle.loop_match.specs.Steps.{place_view, last_of};

use crate::found::Found;
use crate::leaving::{ended, entered, unused};
use crate::next::Step;
use crate::next_place::NextPlace;
use crate::stepping::stepped;
use guide_tree::Node;
use hub_kinds::NoMemory;

/// What shows at a placed segment.
pub fn step<'a>(
    found: &mut Found<'a>,
    at: u64,
    nodes: &'a [Node],
    last: &[Step],
    next: &[Step],
) -> Result<(), NoMemory>
    requires { AllByRecursion (λ s. s.use_no + 1 < 2 ^ 64) last.now }
    ensures { OnOk result (found.new
        ≡ found.old ++ step_faults at (nodes_view nodes.now) (last_of (place_view last.now)) (place_view next.now)) }
{
    let Some((to, _)) = next.split_first() else {
        return Ok(());
    };
    if last.is_empty() {
        return entered(found, at, b"", nodes, 0, *to);
    }
    stepped(found, at, b"", nodes, last, next)
}

/// A step by `next`, which may know that nothing shows.
pub(crate) fn step_by<'a, 'g: 'a, N: NextPlace<'g>>(
    found: &mut Found<'a>,
    at: u64,
    by: &N,
    last: &[Step],
    next: &[Step],
) -> Result<(), NoMemory>
    requires { AllByRecursion (λ s. s.use_no + 1 < 2 ^ 64) last.now }
    ensures { OnOk result (found.new
        ≡ found.old ++ step_faults at (nodes_view (N.guide by.now).nodes.items) (last_of (place_view last.now)) (place_view next.now)) }
{
    if by.is_silent(last, next) {
        return Ok(());
    }
    step(found, at, by.guide().rows().nodes.as_slice(), last, next)
}

/// What shows after the body.
pub fn end<'a>(
    found: &mut Found<'a>,
    at: u64,
    nodes: &'a [Node],
    last: &[Step],
) -> Result<(), NoMemory>
    requires { AllByRecursion (λ s. s.use_no + 1 < 2 ^ 64) last.now }
    ensures { OnOk result (found.new ≡ found.old ++ end_faults at (nodes_view nodes.now) (last_of (place_view last.now))) }
{
    if last.is_empty() {
        return unused(found, at, b"", nodes, 0);
    }
    ended(found, at, b"", nodes, last)
}
