ghost use Rattle.std.specs.Prelude.{IfOk};
ghost use Rattle.names_given.specs.Files.{AreJudged};

use check_command::read_file;
use hub_kinds::NoMemory;
use names_file::{JudgedNames, judge_names};
use std::rt::Files;

/// The words of the names file at `path`, or why it is refused. The only error is out of memory.
pub fn names_at<R: Files + AllocGlobal>(rt: &R, path: &str) -> Result<JudgedNames, NoMemory>
    ensures { IfOk result (AreJudged path.now) }
{
    let file = read_file(rt, path)?;
    judge_names(rt.alloc(), &file.bytes)
}
