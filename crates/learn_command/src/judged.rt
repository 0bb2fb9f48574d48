//! Whether a proposed text is a guide that takes each sample file, and some set is asked for.
ghost use Rattle.std.specs.Prelude.{◌≡◌, IfErr, IfOk, IfSome, IsTrue, option_map};
ghost use Rattle.std.specs.List.{All, Any};
ghost use Rattle.guide_tree.specs.Words.{guide_of};
ghost use Rattle.learn_command.specs.Outcome.{HasSetIn, IsTakenFile, IsUnlearned, TakesFiles};

use crate::causes::{no_set, refused, unread, untaken};
use crate::failure::Failure;
use check_command::{Given, Judged, judge_guide};
use guide_tree::Guide;
use hub_kinds::{NoMemory, Text};
use learn_judge::{has_set, unmet_of};
use learn_samples::{Samples, add_sets};
use night_equal_guides::guide_bytes_are_one;
use std::alloc::Global;

/// Gives `text` back if it describes a guide that takes each of `files`. Only sets with the ST01 `st01` count, or all if there is none.
pub(crate) fn judged(
    alloc: Global,
    text: Text,
    files: &[Given],
    st01: Option<&[u8]>,
) -> Result<Text, Failure>
    ensures takes { IfOk result (TakesFiles files.now (option_map (λ t. t.now) st01.entry)) }
    ensures unlearned { IfErr result IsUnlearned }
{
    let bytes = Some(text);
    judge(alloc, &bytes, files, st01)?;
    match bytes {
        Some(text) => Ok(text),
        None => Err(Failure::Memory),
    }
}

/// Asks that one of `files` has a set with the ST01 `st01`, or any set if there is none; otherwise it gives the failure.
pub(crate) fn asks_for_some(
    alloc: Global,
    files: &[Given],
    st01: Option<&[u8]>,
) -> Result<(), Failure>
    ensures some { IfOk result (λ _. Any (HasSetIn (option_map (λ t. t.now) st01.entry)) files.now) }
    ensures unlearned { IfErr result IsUnlearned }
{
    for k in 0..files.len() {
        if has_set_in(alloc, &files[k], st01)? {
            return Ok(());
        }
    }
    Err(Failure::NoGuide(no_set(alloc)?))
}

/// Whether `file` was read and has a set with the ST01 `st01`, or any set if there is none.
fn has_set_in(alloc: Global, file: &Given, st01: Option<&[u8]>) -> Result<bool, NoMemory>
    ensures { IfOk result (λ has. IsTrue has → HasSetIn (option_map (λ t. t.now) st01.entry) file.now) }
{
    match &file.bytes {
        None => Ok(false),
        Some(bytes) => has_set(alloc, bytes.as_slice(), st01),
    }
}

/// Asks that `text` describes a guide that takes each of `files`; otherwise it gives the failure.
#[tactic(auto, using(crate::proofs::Learning::described))]
fn judge(
    alloc: Global,
    text: &Option<Text>,
    files: &[Given],
    st01: Option<&[u8]>,
) -> Result<(), Failure>
    ensures takes { IfOk result (λ _. IfSome text.now (TakesFiles files.now (option_map (λ t. t.now) st01.entry))) }
    ensures unlearned { IfErr result IsUnlearned }
{
    guide_bytes_are_one();
    match judge_guide(alloc, text)? {
        Judged::Refused(words) => Err(Failure::NoGuide(refused(alloc, words.as_slice())?)),
        Judged::Taken(guide) => judge_files(alloc, &guide, files, st01),
    }
}

/// Asks that `guide` takes each of `files`; otherwise it gives the failure.
fn judge_files(
    alloc: Global,
    guide: &Guide,
    files: &[Given],
    st01: Option<&[u8]>,
) -> Result<(), Failure>
    ensures takes { IfOk result (λ _. All (IsTakenFile (guide_of guide.now) (option_map (λ t. t.now) st01.entry)) files.now) }
    ensures unlearned { IfErr result IsUnlearned }
{
    for file in files {
        judge_file(alloc, guide, file, st01)?;
    }
    Ok(())
}

/// Asks that `guide` takes `file`; otherwise it gives the failure.
fn judge_file(
    alloc: Global,
    guide: &Guide,
    file: &Given,
    st01: Option<&[u8]>,
) -> Result<(), Failure>
    ensures takes { IfOk result (λ _. IsTakenFile (guide_of guide.now) (option_map (λ t. t.now) st01.entry) file.now) }
    ensures unlearned { IfErr result IsUnlearned }
{
    let Some(bytes) = &file.bytes else {
        return Err(Failure::Sample(unread(alloc, file.path)?));
    };
    match unmet_of(alloc, bytes.as_slice(), guide, st01)? {
        None => Ok(()),
        Some(unmet) => {
            let number = number_at(alloc, bytes.as_slice(), unmet.start)?;
            let line = untaken(alloc, file.path, number, unmet.words.as_slice())?;
            Err(Failure::NoGuide(line))
        }
    }
}

/// The number, from 1, of the set of `text` whose ST begins at `start`; 0 if there is none.
fn number_at(alloc: Global, text: &[u8], start: usize) -> Result<usize, NoMemory> {
    let mut samples = Samples::new(alloc);
    let _is_one = add_sets(alloc, &mut samples, text, 0)?;
    let mut number = 0;
    for set in samples.sets.as_slice() {
        if set.header.start() == start {
            number = set.number;
        }
    }
    Ok(number)
}
