ghost use Rattle.std.specs.Prelude.{◌≡◌, ◌↔◌, ◌++◌, ◌+◌, ◌<◌, ◌≤◌, ◌^◌, length, IfOk, IfSome, OnOk};
ghost use Rattle.std.specs.Bool.{OnTrue};
ghost use Rattle.std.specs.List.{AllByRecursion, Contains};
ghost use Rattle.hub_kinds.specs.declared.fault.ElemFault.{ElemFault};
ghost use Rattle.x12_segs.specs.Words.{elements_of};
ghost use Rattle.guide_tree.specs.Words.{guide_of, step_faults, end_faults, IsSound};
ghost use Rattle.loop_match.specs.Steps.{last_of, place_view, turned};
ghost use Rattle.marked_segments.specs.Marked.{IsPlain};
ghost use Rattle.elem_rules.specs.ElementFaults.{IsElementFault};
ghost use Rattle.elem_rules.specs.NodeSlots.{IsSlotOf};
ghost use Rattle.set_walk.specs.Walked.{IsFaultless};

use crate::told::element_faults;
use elem_rules::is_clean_flat;
use guide_fast::FastGuide;
use guide_tree::Slot;
use hub_kinds::{ElemFault, NoMemory};
use loop_match::{Found, Step, Turn, end, step};
use std::alloc::Global;
use x12_segs::SegView;

/// The last place that was given, and how many segments were gone over.
#[derive(Drop)]
pub struct Walk {
    pub last: Vec<Step>,
    /// Room for the next place.
    pub next: Vec<Step>,
    /// The number of the last place's slot, by which the next turn is found sooner; 0 at the beginning.
    pub slot: u32,
    pub count: u64,
}

/// Goes from the last place to the one to which a turn leads.
#[inline(always)]
pub(crate) fn move_on(last: &mut Vec<Step>, turn: &Turn) -> Result<(), NoMemory>
    requires { turn.now.depth ≤ length last.old.items }
    ensures { OnOk result (place_view last.new.items ≡ (turned (place_view last.old.items) turn.now).place) }
{
    last.truncate(turn.depth);
    last.push(Step {
        child: turn.child,
        use_no: turn.use_no,
    })?;
    if turn.into_loop {
        last.push(Step {
            child: 0,
            use_no: 0,
        })?;
    }
    Ok(())
}

/// Writes the place that a turn leads to from the last one.
pub(crate) fn write_place(next: &mut Vec<Step>, last: &[Step], turn: &Turn) -> Result<(), NoMemory>
    requires { turn.now.depth ≤ length last.now }
    ensures { OnOk result (place_view next.new.items ≡ (turned (place_view last.now) turn.now).place) }
{
    next.clear();
    next.extend_from_slice(last)?;
    move_on(next, turn)
}

/// Whether surely no element of the segment has a fault by the slot, by the places of its element separators, if it is plain.
#[inline]
pub(crate) fn looks_faultless(
    fast: &FastGuide,
    seg: &SegView,
    slot: &Slot,
    plain: Option<&[usize]>,
) -> bool
    requires sound { IsSound slot.now }
    requires slot { IsSlotOf (guide_of fast.now).nodes slot.now }
    requires plain { IfSome plain (λ separators. IsPlain separators.now seg.now) }
    ensures { OnTrue result (IsFaultless seg.now slot.now) }
{
    match plain {
        Some(separators) => is_clean_flat(seg, slot, fast.flat_slot(slot), separators),
        None => false,
    }
}

/// What is wrong with a segment's elements by its slot, by the places of its element separators, if it is plain; nothing where it was
/// seen to be faultless.
pub(crate) fn errors_of<'a>(
    alloc: Global,
    fast: &FastGuide,
    seg: &SegView<'a>,
    slot: &'a Slot,
    plain: Option<&[usize]>,
    faultless: bool,
) -> Result<Vec<ElemFault<'a>>, NoMemory>
    requires sound { IsSound slot.now }
    requires slot { IsSlotOf (guide_of fast.now).nodes slot.now }
    requires plain { IfSome plain (λ separators. IsPlain separators.now seg.now) }
    requires faultless { OnTrue faultless (IsFaultless seg.now slot.now) }
    ensures { IfOk result (λ v. (f : ElemFault) → Contains v.items f ↔ IsElementFault seg.now.delims (elements_of seg.now) slot.now f) }
{
    if faultless {
        return Ok(Vec::new(alloc));
    }
    element_faults(alloc, fast, seg, slot, plain)
}

/// Finds what shows at the next place after the last one.
pub(crate) fn step_by<'a, 'g: 'a>(
    found: &mut Found<'a>,
    at: u64,
    fast: &FastGuide<'g>,
    last: &[Step],
    next: &[Step],
) -> Result<(), NoMemory>
    requires { AllByRecursion (λ s. s.use_no + 1 < 2 ^ 64) last.now }
    ensures { OnOk result (found.new
        ≡ found.old ++ step_faults at (guide_of fast.now).nodes (last_of (place_view last.now)) (place_view next.now)) }
{
    if fast.is_silent(last, next) {
        return Ok(());
    }
    step(found, at, fast.guide().rows().nodes.as_slice(), last, next)
}

/// Finds what shows after the body.
pub(crate) fn end_by<'a, 'g: 'a>(
    found: &mut Found<'a>,
    at: u64,
    fast: &FastGuide<'g>,
    last: &[Step],
) -> Result<(), NoMemory>
    requires { AllByRecursion (λ s. s.use_no + 1 < 2 ^ 64) last.now }
    ensures { OnOk result (found.new
        ≡ found.old ++ end_faults at (guide_of fast.now).nodes (last_of (place_view last.now))) }
{
    if fast.is_end_silent(last) {
        return Ok(());
    }
    end(found, at, fast.guide().rows().nodes.as_slice(), last)
}
