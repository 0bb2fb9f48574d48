ghost use Rattle.std.specs.Prelude.{◌≡◌, IfErr, IfOk, map};
ghost use Rattle.check_command.specs.Files.{path_of};
ghost use Rattle.learn_command.specs.Outcome.{IsBefore};

use crate::causes::line_on;
use crate::failure::Failure;
use check_command::{Given, Judged, judge_guide, read_file};
use guide_tree::Guide;
use hub_kinds::NoMemory;
use std::rt::Files;

/// Reads the files at `paths`, in their order.
pub(crate) fn read_files<'a, R: Files + AllocGlobal>(
    rt: &R,
    paths: &[&'a str],
) -> Result<Vec<Given<'a>>, NoMemory>
    ensures { IfOk result (λ files. map path_of files.items ≡ map (λ p. p.now) paths.now) }
{
    let mut files = Vec::new(rt.alloc());
    for path in paths {
        files.push(read_file(rt, path)?)?;
    }
    Ok(files)
}

/// Reads the guides at `paths`, until one is refused.
#[tactic(auto, using(crate::proofs::Learning::some_refused, crate::proofs::Learning::refused_at))]
pub(crate) fn known_guides<R: Files + AllocGlobal>(
    rt: &R,
    paths: &[&str],
) -> Result<Vec<Guide>, Failure>
    ensures { IfErr result (IsBefore (map (λ p. p.now) paths.now)) }
{
    let mut guides = Vec::new(rt.alloc());
    for path in paths {
        let file = read_file(rt, path)?;
        match judge_guide(rt.alloc(), &file.bytes)? {
            Judged::Taken(guide) => add(&mut guides, guide)?,
            Judged::Refused(text) => {
                return Err(Failure::Known(line_on(rt.alloc(), path, text.as_slice())?));
            }
        }
    }
    Ok(guides)
}

fn add(guides: &mut Vec<Guide>, guide: Guide) -> Result<(), NoMemory> {
    guides.push(guide)?;
    Ok(())
}
