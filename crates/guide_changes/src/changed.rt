//! A guide of the hub, against the file of its name that a night had.
ghost use Rattle.std.specs.Prelude.{◌≡◌, ◌++◌, IfOk, OnOk, Some, option_map};
ghost use Rattle.check_command.specs.SetupFiles.{IsGuideRefused};
ghost use Rattle.guide_changes.specs.Changes as changes;

use check_command::{Judged, judge_guide};
use diff_report::compared;
use file_names::append_shown;
use guide_tree::Guide;
use hub_kinds::{NoMemory, Text, copy_text};
use night_folder::read_paper;
use night_shelf::NightFile;
use std::alloc::Global;
use std::rt::Files;

/// Appends `text` to `out`.
pub(crate) fn append(out: &mut Vec<u8>, text: &[u8]) -> Result<(), NoMemory>
    ensures { OnOk result (out.new.items ≡ out.old.items ++ text.now) }
{
    out.extend_from_slice(text)?;
    Ok(())
}

/// What is said of the guide whose file is called `name`.
pub(crate) fn guide_said(alloc: Global, name: &[u8], said: &[u8]) -> Result<Vec<u8>, NoMemory>
    ensures { IfOk result (λ text. text.items ≡ changes.guide_said name.now said.now) }
{
    let mut text = Vec::from_slice(alloc, b"guide ")?;
    append_shown(&mut text, name)?;
    append(&mut text, said)?;
    Ok(text)
}

/// What is said of two files that are called `name` and aren't both guides, of which one is refused in these `words`.
fn unread_line(alloc: Global, name: &[u8], words: &[u8]) -> Result<Vec<u8>, NoMemory>
    ensures { IfOk result (λ text. text.items ≡ changes.unread_line name.now words.now) }
{
    let mut said = Vec::from_slice(alloc, b" has changed, and can't be compared: ")?;
    append_shown(&mut said, words)?;
    append(&mut said, b"\n")?;
    guide_said(alloc, name, said.as_slice())
}

/// How the guides `old` and `new` differ, whose files are called `name`.
fn changed_lines(alloc: Global, name: &[u8], old: &Guide, new: &Guide) -> Result<Vec<u8>, NoMemory>
    ensures { IfOk result (λ text. changes.IsComparedAs name.now old.now new.now text.items) }
{
    let report = compared(alloc, old, new)?;
    let mut said = Vec::from_slice(alloc, b" has changed:\n")?;
    append(&mut said, report.text.as_slice())?;
    guide_said(alloc, name, said.as_slice())
}

/// The guide that `bytes` write, or why they are refused.
fn judged(alloc: Global, bytes: &[u8]) -> Result<Judged<Guide>, NoMemory>
    ensures { IfOk result (changes.IsJudgedAs bytes.now) }
{
    let bytes = Some(copy_text(alloc, bytes)?);
    judge_guide(alloc, &bytes)
}

/// What is said of a file `name` that had the bytes `was`, and has the bytes `now`.
fn change_of(alloc: Global, name: &[u8], was: &[u8], now: &[u8]) -> Result<Vec<u8>, NoMemory>
    ensures { IfOk result (λ text. changes.HasChanged name.now was.now now.now text.items) }
{
    if was == now {
        return Ok(Vec::new(alloc));
    }
    match (judged(alloc, was)?, judged(alloc, now)?) {
        (Judged::Taken(old), Judged::Taken(new)) => changed_lines(alloc, name, &old, &new),
        (Judged::Refused(words), _) => unread_line(alloc, name, words.as_slice()),
        (_, Judged::Refused(words)) => unread_line(alloc, name, words.as_slice()),
    }
}

/// What is said of a file `name` with the bytes `now`, of which the night had the bytes `was`.
fn change_text(
    alloc: Global,
    name: &[u8],
    was: Option<&[u8]>,
    now: &[u8],
) -> Result<Vec<u8>, NoMemory>
    ensures { IfOk result (λ text. changes.IsChange name.now (option_map (λ b. b.now) was.entry) now.now text.items) }
{
    match was {
        None => guide_said(alloc, name, b" is new\n"),
        Some(was) => change_of(alloc, name, was, now),
    }
}

/// What is said of `guide`, a file of the hub, against the file of its name in the folder at the path `before`.
pub(crate) fn change_at<R: Files + AllocGlobal>(
    rt: &R,
    before: &[u8],
    guide: &NightFile,
) -> Result<Vec<u8>, NoMemory>
    ensures { IfOk result (λ text. changes.IsChangeAt before.now guide.now text.items) }
{
    let file = read_paper(rt, before, guide.name.as_slice())?;
    change_text(
        rt.alloc(),
        guide.name.as_slice(),
        file.bytes(),
        guide.bytes.as_slice(),
    )
}
