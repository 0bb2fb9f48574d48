ghost use Rattle.std.specs.Prelude.{◌≡◌, ◌++◌, OnOk};
ghost use Rattle.file_names.specs.Shown.{shown};
ghost use Rattle.hub_command.specs.Lines as lines;

use file_names::append_shown;
use hub_kinds::NoMemory;

/// Appends `words`, and then `text`.
pub(crate) fn append_words(out: &mut Vec<u8>, words: &str, text: &[u8]) -> Result<(), NoMemory>
    ensures { OnOk result (out.new.items ≡ out.old.items ++ lines.worded words.now text.now) }
{
    out.extend_from_slice(words.as_bytes())?;
    out.extend_from_slice(text)?;
    Ok(())
}

/// Appends `words`, and then the path `hub` as it is shown.
pub(crate) fn append_hub(out: &mut Vec<u8>, words: &str, hub: &[u8]) -> Result<(), NoMemory>
    ensures { OnOk result (out.new.items ≡ out.old.items ++ lines.worded words.now (shown hub.now)) }
{
    out.extend_from_slice(words.as_bytes())?;
    append_shown(out, hub)
}

/// Appends `words`, then `text`, and the end of the line.
pub(crate) fn append_ended(out: &mut Vec<u8>, words: &str, text: &[u8]) -> Result<(), NoMemory>
    ensures { OnOk result (out.new.items ≡ out.old.items ++ lines.ended words.now text.now) }
{
    append_words(out, words, text)?;
    out.push(b'\n')?;
    Ok(())
}
