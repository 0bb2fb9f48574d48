ghost use Rattle.std.specs.Prelude.{◌≡◌, ◌++◌, IfOk, OnOk};
ghost use Rattle.std.specs.List.{flat_map};
ghost use Rattle.guide_tree.specs.Words.{guide_of};
ghost use Rattle.names_file.specs.GuideSubjects.{subjects_of};
ghost use Rattle.names_file.specs.Warnings as warnings;

use crate::guide_subjects::subjects_of;
use file_names::append_shown;
use guide_names::Names;
use guide_tree::{Codes, GuideRows};
use hub_kinds::{Items, NoMemory, Text};
use std::alloc::Global;

fn append(out: &mut Vec<u8>, text: &[u8]) -> Result<(), NoMemory>
    ensures { OnOk result (out.new.items ≡ out.old.items ++ text.now) }
{
    out.extend_from_slice(text)?;
    Ok(())
}

#[tactic(auto, unfolding(crate::specs::Warnings::warning_line))]
fn append_line(out: &mut Vec<u8>, path: &[u8], subject: &[u8]) -> Result<(), NoMemory>
    ensures { OnOk result (out.new.items ≡ out.old.items ++ warnings.warning_line path.now subject.now) }
{
    append(out, b"nighthub_page: ")?;
    append_shown(out, path)?;
    append(out, b": the guide has no ")?;
    append_shown(out, subject)?;
    append(out, b"\n")
}

#[tactic(auto, unfolding(crate::specs::Warnings::line_unless_known))]
fn append_unless_known(
    out: &mut Vec<u8>,
    known: &Codes,
    path: &[u8],
    subject: &[u8],
) -> Result<(), NoMemory>
    ensures { OnOk result (out.new.items ≡ out.old.items ++ warnings.line_unless_known known.now path.now subject.now) }
{
    if known.contains(subject) {
        return Ok(());
    }
    append_line(out, path, subject)
}

fn append_lines(
    out: &mut Vec<u8>,
    known: &Codes,
    path: &[u8],
    subjects: &[Text],
) -> Result<(), NoMemory>
    ensures { OnOk result (out.new.items ≡ out.old.items ++ flat_map (warnings.line_unless_known known.now path.now) subjects.now) }
{
    for i in 0..subjects.len() {
        append_unless_known(out, known, path, subjects[i].as_slice())?;
    }
    Ok(())
}

/// What a guide with these `rows` has, for a search.
fn known_in(alloc: Global, rows: &GuideRows) -> Result<Codes, NoMemory>
    ensures { IfOk result (λ known. known ≡ subjects_of (guide_of rows.now)) }
{
    let subjects = subjects_of(alloc, rows)?;
    Codes::new(alloc, Items::from_vec(subjects))
}

/// The lines that warn of what `names`, the words of the file at `path`, has words for, and a guide with these `rows` doesn't have.
pub fn warning_lines(
    alloc: Global,
    rows: &GuideRows,
    names: &Names,
    path: &[u8],
) -> Result<Vec<u8>, NoMemory>
    ensures { IfOk result (λ text. text.items ≡ warnings.warnings (guide_of rows.now) names.now path.now) }
{
    let known = known_in(alloc, rows)?;
    let subjects = names.subjects(alloc)?;
    let mut out = Vec::new(alloc);
    append_lines(&mut out, &known, path, subjects.as_slice())?;
    Ok(out)
}
