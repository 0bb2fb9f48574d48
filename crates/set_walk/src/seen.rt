ghost use Rattle.std.specs.Prelude.{◌≡◌, ◌↔◌, ◌<◌, ◌≤◌, ◌+◌, ◌++◌, ◌∷◌, [], ℕ, List, Some, None, length, IfOk, IfSome, OnOk};
ghost use Rattle.std.specs.Bool.{OnTrue};
ghost use Rattle.std.specs.List.{AllByRecursion, Contains};
ghost use Rattle.hub_kinds.specs.declared.fault.ElemFault.{ElemFault};
ghost use Rattle.x12_segs.specs.Words.{SegValue, elements_of};
ghost use Rattle.guide_tree.specs.Words.{GuideTree, fit_behind, guide_of, step_faults};
ghost use Rattle.elem_rules.specs.ElementFaults.{IsElementFault};
ghost use Rattle.loop_match.specs.Steps.{place_view, turned};
ghost use Rattle.marked_segments.specs.Marked.{IsPlain};
ghost use Rattle.set_walk.specs.Walked.{is_trailer, goes_on, last_in, HasTaken, IsFaultless, IsSeen};

use crate::kept::{Kept, keep};
use crate::told::tell_found;
use crate::walk::{Walk, errors_of, looks_faultless, move_on, step_by, write_place};
use guide_fast::{FastGuide, NextTurn};
use hub_kinds::{ElemFault, Faults, NoMemory};
use loop_match::{Found, Turn};
use std::alloc::Global;
use std::mem::swap;
use x12_segs::{Kind, SegView, kind_of};

/// How many segments of a body are gone over.
pub const MOST_SEGMENTS: u64 = 0xFFFF_FFFF;

/// What was seen after a set's ST: the walk over the body, what it found and kept, and the SE.
#[derive(Drop)]
pub struct Seen<'a, 'g> {
    pub walk: Walk,
    /// The structural faults.
    pub structure: Found<'a>,
    /// The faults of elements.
    pub errors: Faults<'a>,
    pub kept: Kept<'a, 'g>,
    pub trailer: Option<SegView<'a>>,
}

/// Nothing.
pub(crate) fn nothing_seen<'a, 'g>(alloc: Global) -> Seen<'a, 'g>
    ensures { (g : GuideTree) → IsSeen g result [] }
{
    Seen {
        walk: Walk {
            last: Vec::new(alloc),
            next: Vec::new(alloc),
            slot: 0,
            count: 0,
        },
        structure: Found::new(alloc),
        errors: Faults::new(alloc),
        kept: Kept {
            hls: Vec::new(alloc),
            names: Vec::new(alloc),
            labelled: Vec::new(alloc),
        },
        trailer: None,
    }
}

/// Goes over a stray.
#[cold]
fn pass_stray<'a, 'g>(
    seen: &mut Seen<'a, 'g>,
    fast: &FastGuide<'g>,
    seg: &SegView<'a>,
) -> Result<(), NoMemory>
    requires room { AllByRecursion (λ s. s.use_no < seen.old.walk.count) seen.old.walk.last.items }
    requires few { seen.old.walk.count < 4294967295 }
    requires stray { None ≡ fit_behind (elements_of seg.now) (guide_of fast.now).nodes (place_view seen.old.walk.last.items) }
    ensures { OnOk result (HasTaken (guide_of fast.now) seen.old seen.new seg.now) }
{
    let count = seen.walk.count;
    seen.structure.stray(count + 2, fast, seg)?;
    seen.walk.count = count + 1;
    Ok(())
}

/// Goes to the place of the next segment by its turn, where nothing is to be reported.
fn go_silently<'a, 'g: 'a>(
    seen: &mut Seen<'a, 'g>,
    fast: &FastGuide<'g>,
    seg: &SegView<'a>,
    plain: Option<&[usize]>,
    turn: &Turn<'g>,
) -> Result<(), NoMemory>
    requires room { AllByRecursion (λ s. s.use_no < seen.old.walk.count) seen.old.walk.last.items }
    requires few { seen.old.walk.count < 4294967295 }
    requires plain { IfSome plain (λ separators. IsPlain separators.now seg.now) }
    requires faultless { IsFaultless seg.now turn.now.slot.now }
    requires silent { (at : ℕ) → step_faults at (guide_of fast.now).nodes (last_in seen.old.walk)
        (turned (place_view seen.old.walk.last.items) turn.now).place ≡ [] }
    requires turn { Some (turned (place_view seen.old.walk.last.items) turn.now)
        ≡ fit_behind (elements_of seg.now) (guide_of fast.now).nodes (place_view seen.old.walk.last.items) }
    requires depth { turn.now.depth ≤ length seen.old.walk.last.items }
    requires uses { turn.now.use_no ≤ seen.old.walk.count }
    ensures { OnOk result (HasTaken (guide_of fast.now) seen.old seen.new seg.now) }
{
    let _guide = fast.guide();
    move_on(&mut seen.walk.last, turn)?;
    keep(&mut seen.kept, seg, plain, turn.slot)?;
    seen.walk.slot = turn.slot.number;
    seen.walk.count += 1;
    Ok(())
}

/// Goes to the place of the next segment by its turn, reports what shows there, and adds what is wrong with its elements.
fn go_reporting<'a, 'g: 'a>(
    seen: &mut Seen<'a, 'g>,
    fast: &FastGuide<'g>,
    seg: &SegView<'a>,
    plain: Option<&[usize]>,
    turn: &Turn<'g>,
    found: Vec<ElemFault<'a>>,
) -> Result<(), NoMemory>
    requires room { AllByRecursion (λ s. s.use_no < seen.old.walk.count) seen.old.walk.last.items }
    requires few { seen.old.walk.count < 4294967295 }
    requires plain { IfSome plain (λ separators. IsPlain separators.now seg.now) }
    requires found { (f : ElemFault) → Contains found.items f
        ↔ IsElementFault seg.now.delims (elements_of seg.now) turn.now.slot.now f }
    requires turn { Some (turned (place_view seen.old.walk.last.items) turn.now)
        ≡ fit_behind (elements_of seg.now) (guide_of fast.now).nodes (place_view seen.old.walk.last.items) }
    requires depth { turn.now.depth ≤ length seen.old.walk.last.items }
    requires uses { turn.now.use_no ≤ seen.old.walk.count }
    ensures { OnOk result (HasTaken (guide_of fast.now) seen.old seen.new seg.now) }
{
    let position = seen.walk.count + 2;
    let (last, next) = (&mut seen.walk.last, &mut seen.walk.next);
    write_place(next, last.as_slice(), turn)?;
    let place = next.as_slice();
    let nodes = fast.guide().rows().nodes.as_slice();
    tell_found(
        &mut seen.errors,
        position,
        seg,
        nodes,
        place,
        turn.slot,
        found,
    )?;
    step_by(&mut seen.structure, position, fast, last.as_slice(), place)?;
    keep(&mut seen.kept, seg, plain, turn.slot)?;
    swap(last, next);
    seen.walk.slot = turn.slot.number;
    seen.walk.count += 1;
    Ok(())
}

/// Goes to the place of the next segment by its turn, and finds what shows there and what is wrong with its elements.
fn go<'a, 'g: 'a>(
    alloc: Global,
    seen: &mut Seen<'a, 'g>,
    fast: &FastGuide<'g>,
    seg: &SegView<'a>,
    plain: Option<&[usize]>,
    next: &NextTurn<'g>,
) -> Result<(), NoMemory>
    requires room { AllByRecursion (λ s. s.use_no < seen.old.walk.count) seen.old.walk.last.items }
    requires few { seen.old.walk.count < 4294967295 }
    requires plain { IfSome plain (λ separators. IsPlain separators.now seg.now) }
    requires silent { OnTrue next.now.silent ((at : ℕ) → step_faults at (guide_of fast.now).nodes (last_in seen.old.walk)
        (turned (place_view seen.old.walk.last.items) next.now.turn).place ≡ []) }
    requires turn { Some (turned (place_view seen.old.walk.last.items) next.now.turn)
        ≡ fit_behind (elements_of seg.now) (guide_of fast.now).nodes (place_view seen.old.walk.last.items) }
    requires depth { next.now.turn.depth ≤ length seen.old.walk.last.items }
    requires uses { next.now.turn.use_no ≤ seen.old.walk.count }
    ensures { OnOk result (HasTaken (guide_of fast.now) seen.old seen.new seg.now) }
{
    let _accepted = fast.guide().rows();
    let slot = next.turn.slot;
    let faultless = looks_faultless(fast, seg, slot, plain);
    if faultless && next.silent {
        return go_silently(seen, fast, seg, plain, &next.turn);
    }
    let found = errors_of(alloc, fast, seg, slot, plain, faultless)?;
    go_reporting(seen, fast, seg, plain, &next.turn, found)
}

/// Takes the next segment of the body.
fn take<'a, 'g: 'a>(
    alloc: Global,
    seen: &mut Seen<'a, 'g>,
    fast: &FastGuide<'g>,
    seg: &SegView<'a>,
    plain: Option<&[usize]>,
) -> Result<(), NoMemory>
    requires room { AllByRecursion (λ s. s.use_no < seen.old.walk.count) seen.old.walk.last.items }
    requires few { seen.old.walk.count < 4294967295 }
    requires plain { IfSome plain (λ separators. IsPlain separators.now seg.now) }
    ensures { OnOk result (HasTaken (guide_of fast.now) seen.old seen.new seg.now) }
{
    let walk = &seen.walk;
    match fast.next_turn(walk.slot, walk.last.as_slice(), walk.count, seg) {
        None => pass_stray(seen, fast, seg),
        Some(next) => go(alloc, seen, fast, seg, plain, &next),
    }
}

fn is_trailer(seg: &SegView) -> bool
    ensures { result ≡ is_trailer seg.now }
{
    matches!(kind_of(seg), Kind::SetTrailer)
}

/// Sees the next segment, with the places of its element separators, if it is plain, and says whether the walk can continue: after the
/// SE there is none, and a body may have too many.
pub(crate) fn see<'a, 'g: 'a>(
    alloc: Global,
    seen: &mut Seen<'a, 'g>,
    fast: &FastGuide<'g>,
    seg: SegView<'a>,
    plain: Option<&[usize]>,
) -> Result<bool, NoMemory>
    requires room { AllByRecursion (λ s. s.use_no < seen.old.walk.count) seen.old.walk.last.items }
    requires plain { IfSome plain (λ separators. IsPlain separators.now seg) }
    ensures goes_on { IfOk result (λ more. more ≡ goes_on seen.old seg.entry) }
    ensures seen { IfOk result (λ more. OnTrue more ((done : List SegValue) → IsSeen (guide_of fast.now) seen.old done
        → IsSeen (guide_of fast.now) seen.new (done ++ seg.entry ∷ []))) }
{
    if seen.trailer.is_some() {
        return Ok(false);
    }
    if is_trailer(&seg) {
        seen.trailer = Some(seg);
        return Ok(true);
    }
    if seen.walk.count >= MOST_SEGMENTS {
        return Ok(false);
    }
    take(alloc, seen, fast, &seg, plain)?;
    Ok(true)
}
