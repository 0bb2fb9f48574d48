ghost use Rattle.std.specs.Prelude.{IfOk, IfSome};
ghost use Rattle.guide_tree.specs.Words.{guide_of};
ghost use Rattle.guide_samples.specs.Between.{Shows, ShowsDifference};

use crate::attempts::{ATTEMPTS, Pair, attempt_of};
use crate::broken::Broken;
use crate::judge::{fault_between, meets};
use crate::write::text_of;
use difference_faults::{Part, part_of};
use guide_tree::{Guide, GuideHead};
use guide_widening::Difference;
use hub_kinds::{NoMemory, Text};
use std::alloc::Global;

/// A text that shows a `difference` of the guides `old` and `new`: its set meets `old`, and has one fault by `new`, which the difference
/// makes; and what the 999 says of it. None means that no such text was found, and says nothing of the guides. A wider difference has
/// none, nor have guides for sets of another GS01, ST01 or GS08. Some tens of texts are tried, each by two checks at most. The other
/// differences, `all`, only say what the text does without. The only error is out of memory.
pub fn sample_between(
    alloc: Global,
    old: &Guide,
    new: &Guide,
    difference: &Difference,
    all: &[Difference],
) -> Result<Option<Broken>, NoMemory>
    ensures { IfOk result (λ found. IfSome found
        (λ b. ShowsDifference (guide_of old.now) (guide_of new.now) difference.now b.text b.lines)) }
{
    if !are_for_same_sets(&old.rows().head, &new.rows().head) {
        return Ok(None);
    }
    let Some(part) = part_of(alloc, old, new, difference)? else {
        return Ok(None);
    };
    let pair = Pair {
        old,
        new,
        difference,
        all,
    };
    for number in 0..ATTEMPTS {
        if let Some(found) = shown_by(alloc, &pair, &part, number)? {
            return Ok(Some(found));
        }
    }
    Ok(None)
}

/// Whether two guides are for the sets of the same GS01, ST01 and GS08.
fn are_for_same_sets(old: &GuideHead, new: &GuideHead) -> bool {
    old.group.as_slice() == new.group.as_slice()
        && old.set.as_slice() == new.set.as_slice()
        && old.version.as_slice() == new.version.as_slice()
}

/// The first text that shows a difference, which is of `part`, of the attempt with a `number`.
fn shown_by(
    alloc: Global,
    pair: &Pair<'_, '_>,
    part: &Part<'_>,
    number: u8,
) -> Result<Option<Broken>, NoMemory>
    ensures { IfOk result (λ found. IfSome found
        (λ b. Shows (guide_of pair.now.old.now) (guide_of pair.now.new.now) part.now pair.now.difference.now b.text b.lines)) }
{
    let Some(attempt) = attempt_of(alloc, pair, number)? else {
        return Ok(None);
    };
    for trial in attempt.trials.as_slice() {
        let text = text_of(
            alloc,
            attempt.rows,
            attempt.pieces.as_slice(),
            trial.changes.as_slice(),
        )?;
        if let Some(found) = judged(alloc, pair, part, text)? {
            return Ok(Some(found));
        }
    }
    Ok(None)
}

/// A text with what the 999 says of it, if it shows a difference, which is of `part`.
fn judged(
    alloc: Global,
    pair: &Pair<'_, '_>,
    part: &Part<'_>,
    text: Text,
) -> Result<Option<Broken>, NoMemory>
    ensures { IfOk result (λ found. IfSome found
        (λ b. Shows (guide_of pair.now.old.now) (guide_of pair.now.new.now) part.now pair.now.difference.now b.text b.lines)) }
{
    if !meets(alloc, text.as_slice(), pair.old)? {
        return Ok(None);
    }
    match fault_between(alloc, text.as_slice(), pair.new, part, pair.difference)? {
        None => Ok(None),
        Some(lines) => Ok(Some(Broken { text, lines })),
    }
}
