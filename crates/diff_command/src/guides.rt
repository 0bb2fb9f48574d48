ghost use Rattle.std.specs.Prelude.{◌≡◌, ◌++◌, IfOk, OnOk};
ghost use Rattle.diff_command.specs.Outcome.{IsJudged, refused_line};
ghost use Rattle.diff_command.specs.declared.failure.Failure.TheVariants as kind;

use crate::command::Paths;
use crate::failure::Failure;
use check_command::{Judged, judge_guide, read_file};
use file_names::append_shown;
use guide_tree::Guide;
use hub_kinds::{Items, NoMemory};
use std::alloc::Global;
use std::rt::Files;

/// The guide that the file at `path` writes, or why it is refused.
pub(crate) fn guide_at<R: Files + AllocGlobal>(
    rt: &R,
    path: &str,
) -> Result<Judged<Guide>, NoMemory>
    ensures { IfOk result (IsJudged path.now) }
{
    let file = read_file(rt, path)?;
    judge_guide(rt.alloc(), &file.bytes)
}

fn append(out: &mut Vec<u8>, text: &[u8]) -> Result<(), NoMemory>
    ensures { OnOk result (out.new.items ≡ out.old.items ++ text.now) }
{
    out.extend_from_slice(text)?;
    Ok(())
}

/// Adds the line of the guide at `path`, if it is refused.
fn append_refused(out: &mut Vec<u8>, path: &str, guide: &Judged<Guide>) -> Result<(), NoMemory>
    ensures { OnOk result (out.new.items ≡ out.old.items ++ refused_line path.now guide.now) }
{
    let Judged::Refused(text) = guide else {
        return Ok(());
    };
    append(out, b"nighthub_diff: ")?;
    append_shown(out, path.as_bytes())?;
    append(out, b": ")?;
    append_shown(out, text.as_slice())?;
    append(out, b"\n")
}

/// The failure of the guides at `paths` of which one is refused, or both.
pub(crate) fn refusal(
    alloc: Global,
    paths: &Paths<'_>,
    old: &Judged<Guide>,
    new: &Judged<Guide>,
) -> Result<Failure, NoMemory>
    ensures { IfOk result (λ failure.
        failure ≡ kind.Guide (refused_line paths.now.old.now old.now ++ refused_line paths.now.new.now new.now)) }
{
    let mut lines = Vec::new(alloc);
    append_refused(&mut lines, paths.old, old)?;
    append_refused(&mut lines, paths.new, new)?;
    Ok(Failure::Guide(Items::from_vec(lines)))
}
