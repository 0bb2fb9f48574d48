ghost use Rattle.std.specs.Prelude.{◌≡◌, ◌++◌, IfOk, OnOk, decimal};
ghost use Rattle.breach_lines.specs.Lines.{delivery_words};
ghost use Rattle.day_files.specs.Lines as lines;

use crate::member::{Member, OldSet};
use breach_lines::append_delivery;
use file_names::append_shown;
use gather_command::append_outcome;
use hub_kinds::{NoMemory, Texts};
use itoa::Buffer;
use std::alloc::Global;

fn append_text(out: &mut Vec<u8>, text: &str) -> Result<(), NoMemory>
    ensures { OnOk result (out.new.items ≡ out.old.items ++ text.now) }
{
    out.extend_from_slice(text.as_bytes())?;
    Ok(())
}

fn append_number(out: &mut Vec<u8>, number: u64) -> Result<(), NoMemory>
    ensures { OnOk result (out.new.items ≡ out.old.items ++ decimal number) }
{
    let mut digits = Buffer::new();
    append_text(out, digits.format(number))
}

/// Which set of a file was delivered, and in which night.
fn delivery_of(alloc: Global, old: &OldSet) -> Result<Vec<u8>, NoMemory>
    ensures { IfOk result (λ words. words.items ≡ delivery_words old.now.key old.now.night) }
{
    let mut words = Vec::new(alloc);
    append_delivery(&mut words, old.key.as_slice(), old.night.as_slice())?;
    Ok(words)
}

/// Appends why a file is set aside.
fn append_cause(out: &mut Vec<u8>, words: &[u8]) -> Result<(), NoMemory>
    ensures { OnOk result (out.new.items ≡ out.old.items ++ lines.aside_words words.now) }
{
    append_text(out, ": set aside: ")?;
    append_shown(out, words)?;
    append_text(out, "\n")
}

fn append_old(alloc: Global, out: &mut Vec<u8>, old: &OldSet) -> Result<(), NoMemory>
    ensures { OnOk result (out.new.items ≡ out.old.items ++ lines.old_words old.now) }
{
    let words = delivery_of(alloc, old)?;
    append_cause(out, words.as_slice())
}

/// Appends what became of a file, before whose first byte `before` bytes are gathered.
fn append_fate(
    alloc: Global,
    out: &mut Vec<u8>,
    member: &Member,
    before: u64,
) -> Result<(), NoMemory>
    ensures { OnOk result (out.new.items ≡ out.old.items ++ lines.fate_words member.now before) }
{
    match &member.old {
        None => append_outcome(out, member.outcome, before),
        Some(old) => append_old(alloc, out, old),
    }
}

/// Appends that a file is asked for again, if it is.
fn append_asked(out: &mut Vec<u8>, again: &Option<Texts>) -> Result<(), NoMemory>
    ensures { OnOk result (out.new.items ≡ out.old.items ++ lines.again_words again.now) }
{
    match again {
        None => Ok(()),
        Some(_) => append_text(out, " (again)"),
    }
}

/// Appends the line on the file `number`, before whose first byte `before` bytes are gathered.
pub(crate) fn append_member(
    alloc: Global,
    out: &mut Vec<u8>,
    number: u64,
    member: &Member,
    before: u64,
) -> Result<(), NoMemory>
    ensures { OnOk result (out.new.items ≡ out.old.items ++ lines.line_of number member.now before) }
{
    append_text(out, "file ")?;
    append_number(out, number)?;
    append_text(out, " ")?;
    append_shown(out, member.path.as_slice())?;
    append_asked(out, &member.again)?;
    append_fate(alloc, out, member, before)
}
