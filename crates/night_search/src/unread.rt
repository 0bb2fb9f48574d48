ghost use Rattle.std.specs.Prelude.{◌≡◌, ◌++◌, ◌∷◌, [], OnOk, codes};
ghost use Rattle.night_search.specs.Lines as lines;

use crate::append::{append_line, append_parts};
use hub_kinds::NoMemory;
use std::alloc::Global;
use track_read::{NightTable, TableState};

fn append_words(
    alloc: Global,
    out: &mut Vec<u8>,
    night: &[u8],
    words: &[u8],
) -> Result<(), NoMemory>
    ensures { OnOk result (out.new.items ≡ out.old.items
        ++ lines.line_of (lines.joined (codes "night " ∷ night.now ∷ words.now ∷ []))) }
{
    let mut line = Vec::new(alloc);
    append_parts(&mut line, &[b"night ", night, words])?;
    append_line(out, line.as_slice())
}

/// Appends the line on `table` to `out` if it wasn't read. The only error is out of memory.
pub fn append_unread(alloc: Global, out: &mut Vec<u8>, table: &NightTable) -> Result<(), NoMemory>
    ensures { OnOk result (out.new.items ≡ out.old.items ++ lines.unread_line table.now.night table.now.state) }
{
    let night = table.night.as_slice();
    match &table.state {
        TableState::Rows(_) => Ok(()),
        TableState::Unread => append_words(alloc, out, night, b": track.csv can't be read"),
        TableState::Wrong => append_words(
            alloc,
            out,
            night,
            b": track.csv isn't what the night had",
        ),
    }
}
