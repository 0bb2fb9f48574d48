//! The sets from which a guide is learned: those that are asked for, if they are of one kind.
ghost use Rattle.std.specs.Prelude.{IfErr};
ghost use Rattle.learn_command.specs.Outcome.{IsUnlearned};

use crate::causes::{append, append_number, line, no_set};
use crate::failure::Failure;
use file_names::append_shown;
use hub_kinds::{Items, NoMemory, Text};
use learn_samples::Sample;
use std::alloc::Global;
use std::collections::BTreeMap;

/// Those of `sets` whose ST01 is `st01`, or all if there is no `st01`.
pub(crate) fn asked_for<'a>(
    alloc: Global,
    sets: Vec<Sample<'a>>,
    st01: Option<&[u8]>,
) -> Result<Vec<Sample<'a>>, NoMemory> {
    let Some(id) = st01 else {
        return Ok(sets);
    };
    let mut kept = Vec::new(alloc);
    for set in sets {
        if set.header.element(1) == id {
            kept.push(set)?;
        }
    }
    Ok(kept)
}

/// GS01, ST01 and GS08 of `set`.
fn kind_of(alloc: Global, set: &Sample) -> Result<Vec<u8>, NoMemory> {
    let mut kind = Vec::from_slice(alloc, set.group.element(1))?;
    kind.push(b' ')?;
    kind.extend_from_slice(set.header.element(1))?;
    kind.push(b' ')?;
    kind.extend_from_slice(set.group.element(8))?;
    Ok(kind)
}

/// How many of `sets` there are of each kind.
fn kinds_of(alloc: Global, sets: &[Sample]) -> Result<BTreeMap<Vec<u8>, usize>, NoMemory> {
    let mut kinds: BTreeMap<Vec<u8>, usize> = BTreeMap::new(alloc);
    for set in sets {
        let count = kinds.entry(kind_of(alloc, set)?)?.or_insert(0);
        *count = count.saturating_add(1);
    }
    Ok(kinds)
}

/// The line that names several `kinds` of sets, and how many there are of each.
fn several(alloc: Global, kinds: &BTreeMap<Vec<u8>, usize>) -> Result<Text, NoMemory> {
    let mut out = line(alloc)?;
    append(
        &mut out,
        b"one guide is for one GS01, ST01 and GS08, and there are sets of ",
    )?;
    append_number(&mut out, kinds.len())?;
    append(&mut out, b" kinds:")?;
    for (kind, count) in kinds.iter() {
        append(&mut out, b" ")?;
        append_shown(&mut out, kind.as_slice())?;
        append(&mut out, b" (")?;
        append_number(&mut out, *count)?;
        append(&mut out, b")")?;
    }
    append(&mut out, b"; --set ST01 learns from one of them\n")?;
    Ok(Items::from_vec(out))
}

/// Asks that there are `sets`, and that they are of one kind; otherwise it gives the failure.
pub(crate) fn of_one_kind(alloc: Global, sets: &[Sample]) -> Result<(), Failure>
    ensures { IfErr result IsUnlearned }
{
    if sets.is_empty() {
        return Err(Failure::NoGuide(no_set(alloc)?));
    }
    let kinds = kinds_of(alloc, sets)?;
    if kinds.len() > 1 {
        return Err(Failure::NoGuide(several(alloc, &kinds)?));
    }
    Ok(())
}
