ghost use Rattle.std.specs.Prelude.{◌≡◌, ◌++◌, OnOk};
ghost use Rattle.night_search.specs.Lines as lines;

use file_names::append_shown;
use hub_kinds::NoMemory;

/// Appends `parts` to `out`, one after another. The only error is out of memory.
pub fn append_parts(out: &mut Vec<u8>, parts: &[&[u8]]) -> Result<(), NoMemory>
    ensures { OnOk result (out.new.items ≡ out.old.items ++ lines.joined (lines.read parts.now)) }
{
    for part in parts {
        out.extend_from_slice(part)?;
    }
    Ok(())
}

/// Appends `words` to `out` as one line.
pub(crate) fn append_line(out: &mut Vec<u8>, words: &[u8]) -> Result<(), NoMemory>
    ensures { OnOk result (out.new.items ≡ out.old.items ++ lines.line_of words.now) }
{
    append_shown(out, words)?;
    out.extend_from_slice(b"\n")?;
    Ok(())
}
