//! The guide that is proposed for sample files, before it is judged.
ghost use Rattle.std.specs.Prelude.{IfErr};
ghost use Rattle.learn_command.specs.Outcome.{IsUnlearned};

use crate::causes::{append, append_number, empty, line_of, unread};
use crate::chosen::{asked_for, of_one_kind};
use crate::failure::Failure;
use check_command::Given;
use file_names::append_shown;
use guide_tree::Guide;
use hub_kinds::{InterchangeFault, Items, NoMemory, Text};
use learn_guide::{Proposal, propose};
use learn_samples::{LeftOut, Samples, add_sets};
use std::alloc::Global;

/// The sets of `files`. Each file must be readable and have an interchange.
pub(crate) fn samples_of<'a>(alloc: Global, files: &'a [Given<'_>]) -> Result<Samples<'a>, Failure>
    ensures { IfErr result IsUnlearned }
{
    let mut samples = Samples::new(alloc);
    for k in 0..files.len() {
        let Some(bytes) = &files[k].bytes else {
            return Err(Failure::Sample(unread(alloc, files[k].path)?));
        };
        if !add_sets(alloc, &mut samples, bytes.as_slice(), k)? {
            return Err(Failure::Sample(empty(alloc, files[k].path)?));
        }
    }
    Ok(samples)
}

/// The paths of `files`.
fn paths_of<'a>(alloc: Global, files: &[Given<'a>]) -> Result<Vec<&'a str>, NoMemory> {
    let mut paths = Vec::new(alloc);
    for file in files {
        paths.push(file.path)?;
    }
    Ok(paths)
}

/// Appends to `out` a comment for each interchange of `left_out`; `paths` are those of the files.
fn append_left_out(
    out: &mut Vec<u8>,
    paths: &[&str],
    left_out: &[LeftOut],
) -> Result<(), NoMemory> {
    for one in left_out {
        append(out, b"# Left out: interchange ")?;
        append_number(out, one.number)?;
        if let Some(path) = paths.get(one.file) {
            append(out, b" of ")?;
            append_shown(out, path.as_bytes())?;
        }
        append(out, b", which has fault ")?;
        append_number(out, number_of(one.fault))?;
        append(out, b"\n")?;
    }
    Ok(())
}

/// The number of `fault`, from 1.
fn number_of(fault: InterchangeFault) -> usize {
    fault as usize + 1
}

/// Proposes a guide file for the sets of `files` whose ST01 is `st01`, or for all if there is no `st01`. Types and lengths of elements
/// come from the `known` guides.
pub(crate) fn proposed(
    alloc: Global,
    files: &[Given],
    st01: Option<&[u8]>,
    known: &[Guide],
) -> Result<Text, Failure>
    ensures { IfErr result IsUnlearned }
{
    let samples = samples_of(alloc, files)?;
    let paths = paths_of(alloc, files)?;
    let mut out = Vec::new(alloc);
    append_left_out(&mut out, paths.as_slice(), samples.left_out.as_slice())?;
    let sets = asked_for(alloc, samples.sets, st01)?;
    of_one_kind(alloc, sets.as_slice())?;
    match propose(alloc, sets.as_slice(), paths.as_slice(), known)? {
        Proposal::None(words) => Err(Failure::NoGuide(line_of(alloc, words.as_slice())?)),
        Proposal::Guide(text) => {
            append(&mut out, text.as_slice())?;
            Ok(Items::from_vec(out))
        }
    }
}
