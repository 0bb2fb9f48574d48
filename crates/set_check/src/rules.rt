//! What is wrong with a body by the rules of its guide that go over many segments: hierarchies and dependencies.
ghost use Rattle.std.specs.Prelude.{◌≡◌, ◌+◌, ◌↔◌, ◌++◌, ◌∷◌, [], length, map, not, IfOk, OnOk};
ghost use Rattle.std.specs.List.{All, Contains, filter};
ghost use Rattle.hub_kinds.specs.declared.fault.Fault.{Fault};
ghost use Rattle.hub_kinds.specs.Words.{AreRising, key_of, IsKeyedBy};
ghost use Rattle.x12_bytes.specs.declared.delims.Delims.{Delims};
ghost use Rattle.x12_segs.specs.Words.{elements_of};
ghost use Rattle.guide_tree.specs.Words.{guide_of};
ghost use Rattle.loop_match.specs.Given.{place_in};
ghost use Rattle.set_check.specs.Adding.{IsBeside, has_key_among};
ghost use Rattle.set_check.specs.SetFaults.{IsRuleFault};

use depend_check::check_dependencies;
use guide_tree::Guide;
use hl_check::check_hl;
use hub_kinds::{Fault, Faults, NoMemory};
use loop_match::Placing;
use std::alloc::Global;
use x12_segs::SegView;

/// Whether one of some faults that are in order has the key of this one.
fn has_key_among(faults: &Faults, fault: &Fault) -> bool
    ensures { AreRising faults.now → result ≡ has_key_among faults.now fault.now }
{
    faults.search(fault).is_ok()
}

/// The faults of hierarchies and dependencies.
pub(crate) fn rule_faults<'a>(
    alloc: Global,
    segs: &[SegView<'a>],
    placing: &Placing,
    guide: &'a Guide,
) -> Result<Faults<'a>, NoMemory>
    ensures exact { IfOk result (λ v. (delims : Delims) → All (λ s. s.delims ≡ delims) segs.now → (f : Fault)
        → Contains v f ↔ IsRuleFault (guide_of guide.now) delims (map elements_of segs.now)
        (map place_in placing.now.given) (length segs.now + 2) f) }
    ensures keyed { IfOk result (λ v. (delims : Delims) → All (λ s. s.delims ≡ delims) segs.now → IsKeyedBy key_of v) }
{
    let mut faults = check_hl(alloc, segs, placing, guide)?;
    let dependencies = check_dependencies(alloc, segs, placing, guide)?;
    faults.append(dependencies)?;
    Ok(faults)
}

/// Adds a fault whose key none of some faults has, which are in order.
fn add_beside<'a>(kept: &mut Faults<'a>, sorted: &Faults, fault: Fault<'a>) -> Result<(), NoMemory>
    requires { AreRising sorted.now }
    ensures { OnOk result (kept.new ≡ kept.old ++ filter (λ f. not (has_key_among sorted.now f)) (fault.entry ∷ [])) }
{
    if !has_key_among(sorted, &fault) {
        kept.push(fault)?;
    }
    Ok(())
}

/// Those of the `others` whose key none of some faults has, which are in order.
fn beside<'a>(alloc: Global, sorted: &Faults, others: &Faults<'a>) -> Result<Faults<'a>, NoMemory>
    requires { AreRising sorted.now }
    ensures { IfOk result (λ v. v ≡ filter (λ f. not (has_key_among sorted.now f)) others.now) }
{
    let mut kept = Faults::new(alloc);
    for i in 0..others.len() {
        add_beside(&mut kept, sorted, others.at(i))?;
    }
    Ok(kept)
}

/// The element faults, and of the other faults those whose key none of them has.
pub(crate) fn with_others<'a>(
    alloc: Global,
    errors: Faults<'a>,
    others: Faults<'a>,
) -> Result<Faults<'a>, NoMemory>
    requires { IsKeyedBy key_of errors }
    ensures { IfOk result (λ v. (f : Fault) → Contains v f ↔ IsBeside errors.entry others.entry f) }
{
    if others.is_empty() {
        return Ok(errors);
    }
    let mut faults = errors.in_order();
    let kept = beside(alloc, &faults, &others)?;
    faults.append(kept)?;
    Ok(faults)
}
