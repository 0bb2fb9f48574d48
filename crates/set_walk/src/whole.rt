ghost use Rattle.std.specs.Prelude.{◌≡◌, ◌↔◌, ◌+◌, ◌++◌, ◌∷◌, ◌<◌, List, IfOk, IfSome, IsTrue, is_some, length, if◌then◌else◌};
ghost use Rattle.std.specs.List.{AllByRecursion, Contains};
ghost use Rattle.hub_kinds.specs.declared.fault.Fault.{Fault};
ghost use Rattle.hub_kinds.specs.Words.{AreRising, IsKeyedBy, key_of};
ghost use Rattle.x12_segs.specs.Words.{IsSetSpan, SegValue, span_views};
ghost use Rattle.guide_tree.specs.Words.{end_faults, guide_of};
ghost use Rattle.set_walk.specs.Walked.{IsSeen, last_in};
ghost use Rattle.set_walk.specs.WalkedSet.{IsWalkedSet, IsWithoutRules};

use crate::depends::are_few;
use crate::ends::Ends;
use crate::rules::are_rules_kept;
use crate::seen::{Seen, nothing_seen, see};
use crate::walk::{Walk, end_by};
use crate::walked::WalkedSet;
use guide_fast::FastGuide;
use hub_kinds::{Faults, NoMemory};
use loop_match::Found;
use marked_segments::MarkedSegments;
use std::alloc::Global;
use x12_segs::{SegView, SetSpan};

/// How many segments a set has whose body has that many.
fn count_with_ends(count: u64, closed: bool) -> u64
    requires { count < 4294967296 }
    ensures { result ≡ count + (if closed then 2 else 1) }
{
    if closed { count + 2 } else { count + 1 }
}

/// The faults of two lists; the fewer are moved after the others, so that no list appears twice.
fn faults_of_both<'a>(structure: Faults<'a>, errors: Faults<'a>) -> Result<Faults<'a>, NoMemory>
    ensures { IfOk result (λ v. (f : Fault) → Contains v f ↔ Contains (structure.entry ++ errors.entry) f) }
{
    let (mut structure, mut errors) = (structure, errors);
    if structure.len() < errors.len() {
        errors.append(structure)?;
        return Ok(errors);
    }
    structure.append(errors)?;
    Ok(structure)
}

/// The structural faults with those that show after the body, and the faults of elements.
fn body_faults<'a, 'g: 'a>(
    fast: &FastGuide<'g>,
    walk: &Walk,
    structure: Found<'a>,
    errors: Faults<'a>,
) -> Result<Faults<'a>, NoMemory>
    requires few { walk.now.count < 4294967296 }
    requires room { AllByRecursion (λ s. s.use_no < walk.now.count) walk.now.last.items }
    ensures { IfOk result (λ v. (f : Fault) → Contains v f ↔ Contains ((structure.entry
        ++ end_faults (walk.now.count + 2) (guide_of fast.now).nodes (last_in walk.now)) ++ errors.entry) f) }
{
    let mut structure = structure;
    end_by(&mut structure, walk.count + 2, fast, walk.last.as_slice())?;
    faults_of_both(structure.into_faults(), errors)
}

/// What was found, once all segments of a set were seen; none where it hasn't the SE that it is to have, or where its hierarchy or a
/// dependency may be broken.
fn close<'a, 'g: 'a>(
    alloc: Global,
    set: &SetSpan,
    fast: &FastGuide<'g>,
    header: SegView<'a>,
    seen: Seen<'a, 'g>,
) -> Result<Option<WalkedSet<'a>>, NoMemory>
    requires few { seen.walk.count < 4294967296 }
    requires room { AllByRecursion (λ s. s.use_no < seen.walk.count) seen.walk.last.items }
    ensures walked { IfOk result (λ walked. IfSome walked (λ w. (done : List SegValue) → IsSeen (guide_of fast.now) seen.entry done
        → IsWalkedSet (guide_of fast.now) set.now.delims set.now.closed (header.entry ∷ done) w)) }
    ensures given { IfOk result (λ walked. IsWithoutRules (guide_of fast.now) → is_some seen.entry.trailer ≡ set.now.closed
        → IsTrue (is_some walked)) }
{
    let Seen {
        walk,
        structure,
        errors,
        kept,
        trailer,
    } = seen;
    if trailer.is_some() != set.closed {
        return Ok(None);
    }
    if !are_rules_kept(alloc, fast.guide().rows(), set.delims, &kept)? {
        return Ok(None);
    }
    let faults = body_faults(fast, &walk, structure, errors)?;
    let ends = Ends {
        header,
        segments: count_with_ends(walk.count, set.closed),
        trailer,
    };
    Ok(Some(WalkedSet { ends, faults }))
}

/// The faults in their order, each once.
fn with_order<'a>(walked: WalkedSet<'a>) -> WalkedSet<'a>
    requires { IsKeyedBy key_of walked.faults }
    ensures ends { result.ends ≡ walked.entry.ends }
    ensures same { (f : Fault) → Contains result.faults f ↔ Contains walked.entry.faults f }
    ensures rising { AreRising result.faults }
{
    WalkedSet {
        ends: walked.ends,
        faults: walked.faults.in_order(),
    }
}

/// Goes once over a set of a text by its compiled guide, with no list of its segments: the set's ends, and exactly the faults of its
/// structure and of its elements (999 guide, IK3 and IK4), in their order, each once, where surely nothing is wrong with its hierarchy
/// nor with a dependency; else none, and none by a guide with more than four dependencies. By a guide without such rules there is none
/// only of a set with 4,294,967,296 segments or more. The only error is out of memory.
pub fn walk_set<'a, 'g: 'a>(
    alloc: Global,
    text: &'a [u8],
    set: &SetSpan,
    fast: &FastGuide<'g>,
) -> Result<Option<WalkedSet<'a>>, NoMemory>
    requires { IsSetSpan text.now set.now }
    ensures walked { IfOk result (λ walked. IfSome walked
        (IsWalkedSet (guide_of fast.now) set.now.delims set.now.closed (span_views text.entry.now set.now))) }
    ensures rising { IfOk result (λ walked. IfSome walked (λ w. AreRising w.faults)) }
    ensures given { IfOk result (λ walked. IsWithoutRules (guide_of fast.now) → length (span_views text.entry.now set.now) < 4294967296
        → IsTrue (is_some walked)) }
{
    let rows = fast.guide().rows();
    if !are_few(rows.depends.as_slice()) {
        return Ok(None);
    }
    let mut segs = MarkedSegments::of_span(alloc, text, set)?;
    let Some(header) = segs.next_segment() else {
        return Ok(None);
    };
    let mut seen = nothing_seen(alloc);
    while let Some(seg) = segs.next_segment() {
        if !see(alloc, &mut seen, fast, seg, segs.separators())? {
            return Ok(None);
        }
    }
    match close(alloc, set, fast, header, seen)? {
        None => Ok(None),
        Some(walked) => Ok(Some(with_order(walked))),
    }
}
