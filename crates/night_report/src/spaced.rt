ghost use Rattle.std.specs.Prelude.{◌≡◌, ◌++◌, ◌∷◌, [], List, ℕ, OnOk, decimal, map};
ghost use Rattle.night_report.specs.Lines.{line, spaced};
ghost use Rattle.x12_write.specs.Segment.{read};

use hub_kinds::NoMemory;
use itoa::Buffer;

/// Writes a word after a space.
pub(crate) fn append_word(out: &mut Vec<u8>, word: &[u8]) -> Result<(), NoMemory>
    ensures { OnOk result (out.new.items ≡ out.old.items ++ spaced (word.now ∷ [])) }
{
    out.push(b' ')?;
    out.extend_from_slice(word)?;
    Ok(())
}

/// Writes each word after a space.
pub(crate) fn append_words(out: &mut Vec<u8>, words: &[&[u8]]) -> Result<(), NoMemory>
    ensures { OnOk result (out.new.items ≡ out.old.items ++ spaced (read words.now)) }
{
    for word in words {
        append_word(out, word)?;
    }
    Ok(())
}

/// Writes a word and a number, each after a space.
pub(crate) fn append_count(out: &mut Vec<u8>, word: &[u8], count: u128) -> Result<(), NoMemory>
    ensures { OnOk result (out.new.items ≡ out.old.items ++ spaced (word.now ∷ decimal count ∷ [])) }
{
    let mut digits = Buffer::new();
    append_words(out, &[word, digits.format(count).as_bytes()])
}

/// Writes a line: its first word, each other word after a space, LF.
pub(crate) fn append_line(out: &mut Vec<u8>, first: &[u8], words: &[&[u8]]) -> Result<(), NoMemory>
    ensures { OnOk result (out.new.items ≡ out.old.items ++ line first.now (read words.now)) }
{
    out.extend_from_slice(first)?;
    append_words(out, words)?;
    out.push(b'\n')?;
    Ok(())
}
