ghost use Rattle.std.specs.Prelude.{◌≡◌, IfOk};
ghost use Rattle.hub_folder.specs.Programs as programs;

use hub_kinds::{Items, NoMemory, Text};
use night_entries::sum_of;
use night_folder::read_paper;
use std::alloc::Global;
use std::rt::Files;

/// The line that sha256sum prints of `bytes`, the file of the program.
fn line_of(alloc: Global, bytes: &[u8]) -> Result<Text, NoMemory>
    ensures { IfOk result (λ line. line ≡ programs.line_of_program bytes.now) }
{
    let sum = sum_of(alloc, bytes)?;
    let mut line = Vec::from_slice(alloc, sum.as_slice())?;
    line.extend_from_slice(b"  nighthub_day\n")?;
    Ok(Items::from_vec(line))
}

/// The line that sha256sum prints of the file that the system runs, under the name `nighthub_day`; no bytes if that file can't be read.
/// The only error is out of memory.
pub fn program_line<R: Files + AllocGlobal>(rt: &R) -> Result<Text, NoMemory>
    ensures { IfOk result programs.IsProgramLine }
{
    let file = read_paper(rt, b"/proc/self", b"exe")?;
    match file.bytes() {
        None => Ok(Items::from_vec(Vec::new(rt.alloc()))),
        Some(bytes) => line_of(rt.alloc(), bytes),
    }
}
