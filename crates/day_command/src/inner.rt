ghost use Rattle.std.specs.Prelude.{◌≡◌, IfOk, option_map};
ghost use Rattle.day_command.specs.Page as page;

use hub_kinds::{NoMemory, Text, within_limit};
use inner_headers::inner_lines;
use night_folder::read_paper;
use std::alloc::Global;
use std::rt::Files;

/// The lines on a night's input; none if it is longer than an input may be.
fn lines_of(alloc: Global, text: &[u8]) -> Result<Vec<Text>, NoMemory>
    ensures { IfOk result (λ lines. page.AreInnerOf text.now lines.items) }
{
    if within_limit(text.len() as u64) {
        inner_lines(alloc, text)
    } else {
        Ok(Vec::new(alloc))
    }
}

fn inner_in(alloc: Global, input: Option<&[u8]>) -> Result<Vec<Text>, NoMemory>
    ensures { IfOk result (λ lines. page.AreInnerIn (option_map (λ i. i.now) input.entry) lines.items) }
{
    match input {
        None => Ok(Vec::new(alloc)),
        Some(text) => lines_of(alloc, text),
    }
}

/// A line for each refused interchange of the input of the night in the folder at the path `night` in which further headers begin; none if
/// the input can't be read.
pub(crate) fn inner_at<R: Files + AllocGlobal>(rt: &R, night: &[u8]) -> Result<Vec<Text>, NoMemory>
    ensures { IfOk result (λ lines. page.AreInnerAt night.now lines.items) }
{
    let input = read_paper(rt, night, b"from/in.x12")?;
    inner_in(rt.alloc(), input.bytes())
}
