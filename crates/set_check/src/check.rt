ghost use Rattle.std.specs.Prelude.{◌≡◌, ◌≤◌, ◌↔◌, [], None, length, IfOk, IfSome};
ghost use Rattle.std.specs.List.{All};
ghost use Rattle.std.specs.Option.{option_copied, option_map_or};
ghost use Rattle.hub_kinds.specs.Words.{AreRising};
ghost use Rattle.set_check.specs.Checked.{guide_in, parts_in, guide_tree_of};
ghost use Rattle.set_check.specs.Meets.{MeetsAlone};
ghost use Rattle.set_check.specs.SetFaults.{AreSetFaults, codes_with};
ghost use Rattle.set_check.specs.Envelope.{IsEnvelopeOf};
ghost use Rattle.set_check.specs.SetParts.{before_trailer, parts_of, set_parts};
ghost use Rattle.x12_segs.specs.Words.{IsSetSpan};

use crate::body::body_faults;
use crate::checked::{CheckedSet, Found, is_without_fault};
use crate::codes::set_codes;
use crate::envelope::envelope_of;
use crate::segments::segments_of;
use guide_tree::Guide;
use hub_kinds::{Faults, NoMemory};
use set_walk::Ends;
use std::alloc::Global;
use std::boxed::Box;
use x12_segs::{SegView, SetSpan};

/// Checks a transaction set (X12.6) of a text by its guide, if it has one: its faults (999 guide, IK3 and IK4), in their
/// order, each once, and its codes (IK5) but for the one that an earlier set of its group gives. Without a guide its segments
/// aren't checked. The only error is out of memory.
pub fn check_set<'a>(
    alloc: Global,
    text: &'a [u8],
    set: SetSpan,
    guide: Option<&'a Guide>,
) -> Result<CheckedSet<'a>, NoMemory>
    requires span { IsSetSpan text.now set }
    ensures text { IfOk result (λ c. c.text ≡ text.entry.now) }
    ensures span { IfOk result (λ c. c.span ≡ set) }
    ensures guide { IfOk result (λ c. c.guide ≡ option_copied guide.entry) }
    ensures faults { IfOk result (λ c. AreSetFaults (guide_in c) (parts_in c) c.faults) }
    ensures rising { IfOk result (λ c. AreRising c.faults) }
    ensures codes { IfOk result (λ c. c.codes ≡ codes_with (guide_in c) (parts_in c) c.faults) }
    ensures meets { IfOk result (λ c. ((c.faults ≡ []) × (c.codes ≡ [])) ↔ MeetsAlone (guide_in c) (parts_in c)) }
{
    let segs = segments_of(alloc, text, &set)?;
    let faults = set_faults(alloc, &set, segs.as_slice(), guide)?;
    checked_by(
        alloc,
        text,
        set,
        guide,
        envelope_of(set.closed, segs),
        faults,
    )
}

/// Puts together what was found of a set, and finds its codes.
pub(crate) fn checked_by<'a>(
    alloc: Global,
    text: &'a [u8],
    set: SetSpan,
    guide: Option<&'a Guide>,
    envelope: Ends<'a>,
    faults: Faults<'a>,
) -> Result<CheckedSet<'a>, NoMemory>
    requires span { IsSetSpan text.now set }
    requires envelope { IsEnvelopeOf (set_parts text.now set) envelope }
    requires faults { AreSetFaults (guide_tree_of (option_copied guide)) (set_parts text.now set) faults }
    requires rising { AreRising faults }
    ensures text { IfOk result (λ c. c.text ≡ text.entry.now) }
    ensures span { IfOk result (λ c. c.span ≡ set) }
    ensures guide { IfOk result (λ c. c.guide ≡ option_copied guide.entry) }
    ensures faults { IfOk result (λ c. AreSetFaults (guide_in c) (parts_in c) c.faults) }
    ensures rising { IfOk result (λ c. AreRising c.faults) }
    ensures codes { IfOk result (λ c. c.codes ≡ codes_with (guide_in c) (parts_in c) c.faults) }
    ensures meets { IfOk result (λ c. ((c.faults ≡ []) × (c.codes ≡ [])) ↔ MeetsAlone (guide_in c) (parts_in c)) }
{
    let codes = set_codes(
        alloc,
        &faults,
        guide,
        &envelope.header,
        envelope.segments,
        envelope.trailer.as_ref(),
        false,
    )?;
    let found = unless_clean(alloc, &faults, Found { codes, envelope })?;
    Ok(CheckedSet {
        text,
        span: set,
        guide,
        faults,
        found,
    })
}

/// Keeps what was found of a set with these faults, unless nothing was.
fn unless_clean<'a>(
    alloc: Global,
    faults: &Faults,
    found: Found<'a>,
) -> Result<Option<Box<Found<'a>>>, NoMemory>
    ensures none { IfOk result (λ kept. kept ≡ None → faults.now ≡ []) }
    ensures codes { IfOk result (λ kept. option_map_or (λ f. f.value.codes.items) kept [] ≡ found.entry.codes.items) }
    ensures envelope { IfOk result (λ kept. IfSome kept (λ f. f.value.envelope ≡ found.entry.envelope)) }
{
    if is_without_fault(faults, found.codes.as_slice()) {
        return Ok(None);
    }
    Ok(Some(Box::new(alloc, found)?))
}

/// The faults of the segments of a set by its guide; none where it has no guide.
fn set_faults<'a>(
    alloc: Global,
    set: &SetSpan,
    segs: &[SegView<'a>],
    guide: Option<&'a Guide>,
) -> Result<Faults<'a>, NoMemory>
    requires some { 1 ≤ length segs.now }
    requires room { 1 ≤ before_trailer set.now.closed (length segs.now) }
    requires read { All (λ s. s.delims ≡ set.now.delims) segs.now }
    ensures exact { IfOk result (λ v.
        AreSetFaults (guide_tree_of (option_copied guide.entry)) (parts_of set.now.delims set.now.closed segs.now) v) }
    ensures rising { IfOk result (λ v. AreRising v) }
{
    match guide {
        None => Ok(Faults::new(alloc)),
        Some(guide) => body_faults(alloc, set, segs, guide),
    }
}
