ghost use Rattle.std.specs.Prelude.{◌≡◌, ◌++◌, OnOk, codes, decimal};
ghost use Rattle.breach_lines.specs.Lines as lines;

use file_names::append_shown;
use hub_kinds::{Counters, Lent, NoMemory};
use itoa::Buffer;

pub(crate) fn append(out: &mut Vec<u8>, text: &[u8]) -> Result<(), NoMemory>
    ensures { OnOk result (out.new.items ≡ out.old.items ++ text.now) }
{
    out.extend_from_slice(text)?;
    Ok(())
}

pub(crate) fn append_text(out: &mut Vec<u8>, text: &str) -> Result<(), NoMemory>
    ensures { OnOk result (out.new.items ≡ out.old.items ++ text.now) }
{
    append(out, text.as_bytes())
}

pub(crate) fn append_number(out: &mut Vec<u8>, n: u64) -> Result<(), NoMemory>
    ensures { OnOk result (out.new.items ≡ out.old.items ++ decimal n) }
{
    let mut digits = Buffer::new();
    append_text(out, digits.format(n))
}

/// Appends which night a line is about.
pub(crate) fn append_night(out: &mut Vec<u8>, night: &[u8]) -> Result<(), NoMemory>
    ensures { OnOk result (out.new.items ≡ out.old.items ++ lines.night_words night.now) }
{
    append_text(out, "night ")?;
    append(out, night)?;
    append_text(out, ": ")
}

/// The name of a night, or that there is none if it is empty.
fn named(name: &[u8]) -> &[u8]
    ensures { result.now ≡ lines.named_words name.now }
{
    match name {
        [] => b"none",
        [..] => name,
    }
}

/// Appends `label`, and after it the name of a night, which is empty if there is none.
pub(crate) fn append_named(out: &mut Vec<u8>, label: &str, name: &Lent<'_>) -> Result<(), NoMemory>
    ensures { OnOk result (out.new.items ≡ out.old.items ++ (label.now ++ lines.named_words name.now)) }
{
    append_after(out, label, named(name.bytes()))
}

/// Appends `label`, and `name` after it.
pub(crate) fn append_name(out: &mut Vec<u8>, label: &str, name: &Lent<'_>) -> Result<(), NoMemory>
    ensures { OnOk result (out.new.items ≡ out.old.items ++ (label.now ++ name.now)) }
{
    append_after(out, label, name.bytes())
}

/// Appends `label`, and after it the numbers of an address.
pub(crate) fn append_numbers(
    out: &mut Vec<u8>,
    label: &str,
    numbers: Counters,
) -> Result<(), NoMemory>
    ensures { OnOk result (out.new.items ≡ out.old.items ++ (label.now ++ lines.number_words numbers)) }
{
    append_text(out, label)?;
    append_counters(out, numbers)
}

fn append_counters(out: &mut Vec<u8>, numbers: Counters) -> Result<(), NoMemory>
    ensures { OnOk result (out.new.items ≡ out.old.items ++ lines.number_words numbers) }
{
    append_text(out, "ISA13 ")?;
    append_number(out, u64::from(numbers.interchange))?;
    append_text(out, " GS06 ")?;
    append_number(out, u64::from(numbers.group))?;
    append_text(out, " ST02 ")?;
    append_number(out, u64::from(numbers.set))
}

/// Appends words as one line.
pub(crate) fn append_line(out: &mut Vec<u8>, words: &[u8]) -> Result<(), NoMemory>
    ensures { OnOk result (out.new.items ≡ out.old.items ++ lines.line_of words.now) }
{
    append_shown(out, words)?;
    append_text(out, "\n")
}

/// Appends `label`, and `text` after it.
pub(crate) fn append_after(out: &mut Vec<u8>, label: &str, text: &[u8]) -> Result<(), NoMemory>
    ensures { OnOk result (out.new.items ≡ out.old.items ++ (label.now ++ text.now)) }
{
    append_text(out, label)?;
    append(out, text)
}
