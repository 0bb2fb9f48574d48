ghost use Rattle.std.specs.Prelude.{◌≡◌, ◌≤◌, ◌↔◌, [], length, IfOk, IfSome};
ghost use Rattle.std.specs.List.{All};
ghost use Rattle.std.specs.Option.{option_copied};
ghost use Rattle.hub_kinds.specs.Words.{AreRising};
ghost use Rattle.set_check.specs.Checked.{guide_in, parts_in, guide_tree_of};
ghost use Rattle.set_check.specs.Meets.{MeetsAlone};
ghost use Rattle.set_check.specs.SetFaults.{AreSetFaults, codes_with};
ghost use Rattle.set_check.specs.Envelope.{IsEnvelopeOf};
ghost use Rattle.set_check.specs.SetParts.{before_trailer, parts_of, set_parts};
ghost use Rattle.x12_segs.specs.Words.{IsSetSpan};

use crate::body::body_faults_fast;
use crate::check::checked_by;
use crate::checked::CheckedSet;
use crate::envelope::envelope_of;
use crate::segments::segments_of;
use guide_fast::FastGuide;
use guide_tree::Guide;
use hub_kinds::{Faults, NoMemory};
use set_walk::{WalkedSet, walk_set};
use std::alloc::Global;
use x12_segs::{SegView, SetSpan};

/// Checks a transaction set (X12.6) of a text by its compiled guide, if it has one, as `check_set` does by a guide: its faults
/// (999 guide, IK3 and IK4), in their order, each once, and its codes (IK5) but for the one that an earlier set of its group
/// gives. Without a guide its segments aren't checked. The only error is out of memory.
pub fn check_set_fast<'a, 'g: 'a>(
    alloc: Global,
    text: &'a [u8],
    set: SetSpan,
    fast: Option<&FastGuide<'g>>,
) -> Result<CheckedSet<'a>, NoMemory>
    requires span { IsSetSpan text.now set }
    ensures text { IfOk result (λ c. c.text ≡ text.entry.now) }
    ensures span { IfOk result (λ c. c.span ≡ set) }
    ensures guide { IfOk result (λ c. c.guide ≡ option_copied fast.entry) }
    ensures faults { IfOk result (λ c. AreSetFaults (guide_in c) (parts_in c) c.faults) }
    ensures rising { IfOk result (λ c. AreRising c.faults) }
    ensures codes { IfOk result (λ c. c.codes ≡ codes_with (guide_in c) (parts_in c) c.faults) }
    ensures meets { IfOk result (λ c. ((c.faults ≡ []) × (c.codes ≡ [])) ↔ MeetsAlone (guide_in c) (parts_in c)) }
{
    if let Some(walked) = walked_by(alloc, text, &set, fast)? {
        let WalkedSet { ends, faults } = walked;
        return checked_by(alloc, text, set, guide_by(fast), ends, faults);
    }
    let segs = segments_of(alloc, text, &set)?;
    let faults = set_faults_fast(alloc, &set, segs.as_slice(), fast)?;
    let envelope = envelope_of(set.closed, segs);
    checked_by(alloc, text, set, guide_by(fast), envelope, faults)
}

/// What one walk over a set finds, its faults in their order; none if the set has no guide, or if its hierarchy or a dependency of its
/// guide may be broken.
fn walked_by<'a, 'g: 'a>(
    alloc: Global,
    text: &'a [u8],
    set: &SetSpan,
    fast: Option<&FastGuide<'g>>,
) -> Result<Option<WalkedSet<'a>>, NoMemory>
    requires { IsSetSpan text.now set.now }
    ensures ends { IfOk result (λ found. IfSome found (λ w. IsEnvelopeOf (set_parts text.entry.now set.now) w.ends)) }
    ensures faults { IfOk result (λ found. IfSome found (λ w.
        AreSetFaults (guide_tree_of (option_copied fast.entry)) (set_parts text.entry.now set.now) w.faults)) }
    ensures rising { IfOk result (λ found. IfSome found (λ w. AreRising w.faults)) }
{
    let Some(fast) = fast else {
        return Ok(None);
    };
    walk_set(alloc, text, set, fast)
}

/// The guide of a compiled one.
fn guide_by<'a, 'g: 'a>(fast: Option<&FastGuide<'g>>) -> Option<&'a Guide>
    ensures { option_copied result ≡ option_copied fast.entry }
{
    match fast {
        None => None,
        Some(fast) => Some(fast.guide()),
    }
}

/// The faults of the segments of a set by its compiled guide; none where it has no guide.
fn set_faults_fast<'a, 'g: 'a>(
    alloc: Global,
    set: &SetSpan,
    segs: &[SegView<'a>],
    fast: Option<&FastGuide<'g>>,
) -> Result<Faults<'a>, NoMemory>
    requires some { 1 ≤ length segs.now }
    requires room { 1 ≤ before_trailer set.now.closed (length segs.now) }
    requires read { All (λ s. s.delims ≡ set.now.delims) segs.now }
    ensures exact { IfOk result (λ v.
        AreSetFaults (guide_tree_of (option_copied fast.entry)) (parts_of set.now.delims set.now.closed segs.now) v) }
    ensures rising { IfOk result (λ v. AreRising v) }
{
    match fast {
        None => Ok(Faults::new(alloc)),
        Some(fast) => body_faults_fast(alloc, set, segs, fast),
    }
}
