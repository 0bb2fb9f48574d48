ghost use Rattle.std.specs.Prelude.{◌≡◌, ◌==◌, None, IfOk, IfSome};
ghost use Rattle.std.specs.List.{position};
ghost use Rattle.csv_fields.specs.Csv.{read};
ghost use Rattle.night_record.specs.Lines.{AreLinesOf, IsUnended};

use hub_kinds::NoMemory;
use std::alloc::Global;

/// Where the first line of `text` ends, without its line feed.
fn line_end(text: &[u8]) -> Option<usize>
    ensures { result ≡ position (λ byte. byte == 10) text.now }
{
    text.iter().position(|byte| *byte == b'\n')
}

/// The lines of `text`; none if it ends without a line feed. The only error is out of memory.
pub(crate) fn lines_in<'a>(alloc: Global, text: &'a [u8]) -> Result<Option<Vec<&'a [u8]>>, NoMemory>
    ensures lines { IfOk result (λ found. IfSome found (λ lines. AreLinesOf text.entry.now (read lines.items))) }
    ensures none { IfOk result (λ found. found ≡ None → IsUnended text.entry.now) }
{
    let mut lines = Vec::new(alloc);
    let mut at = 0;
    while at < text.len() {
        let Some(end) = line_end(&text[at..]) else {
            return Ok(None);
        };
        lines.push(&text[at..at + end])?;
        at += end + 1;
    }
    Ok(Some(lines))
}
