ghost use Rattle.std.specs.Prelude.{◌≡◌, ◌++◌, ◌+◌, IfOk, OnOk, decimal};
ghost use Rattle.record_review.specs.Lines as lines;

use crate::read::{BadRecord, RecordState};
use file_names::append_shown;
use hub_kinds::NoMemory;
use itoa::Buffer;
use record_chain::{ChainBreak, ReadNight, append_breaks};
use std::alloc::Global;

fn append_text(out: &mut Vec<u8>, text: &str) -> Result<(), NoMemory>
    ensures { OnOk result (out.new.items ≡ out.old.items ++ text.now) }
{
    out.extend_from_slice(text.as_bytes())?;
    Ok(())
}

fn append_number(out: &mut Vec<u8>, n: u64) -> Result<(), NoMemory>
    ensures { OnOk result (out.new.items ≡ out.old.items ++ decimal n) }
{
    let mut digits = Buffer::new();
    append_text(out, digits.format(n))
}

fn state_words(state: RecordState) -> &'static str
    ensures { result.now ≡ lines.state_words state }
{
    match state {
        RecordState::Unread => ": night.toml can't be read",
        RecordState::NoRecord => ": night.toml isn't the record of a night",
    }
}

/// Appends the line on a night without a record.
fn append_bad(alloc: Global, out: &mut Vec<u8>, bad: &BadRecord) -> Result<(), NoMemory>
    ensures { OnOk result (out.new.items ≡ out.old.items ++ lines.bad_line bad.now) }
{
    let mut words = Vec::from_slice(alloc, b"night ")?;
    words.extend_from_slice(bad.night.as_slice())?;
    append_text(&mut words, state_words(bad.state))?;
    append_shown(out, words.as_slice())?;
    append_text(out, "\n")
}

fn append_all_bad(alloc: Global, out: &mut Vec<u8>, bad: &[BadRecord]) -> Result<(), NoMemory>
    ensures { OnOk result (out.new.items ≡ out.old.items ++ lines.bad_lines bad.now) }
{
    for i in 0..bad.len() {
        append_bad(alloc, out, &bad[i])?;
    }
    Ok(())
}

/// The sum of the last record.
fn last_sum(nights: &[ReadNight]) -> &[u8]
    ensures { result.now ≡ lines.last_sum nights.entry.now }
{
    match nights.last() {
        None => b"",
        Some(night) => night.sum.as_slice(),
    }
}

fn append_ending(out: &mut Vec<u8>, amiss: u64, nights: &[ReadNight]) -> Result<(), NoMemory>
    ensures { OnOk result (out.new.items ≡ out.old.items ++ lines.ending amiss nights.now) }
{
    if amiss == 0 {
        append_text(out, "each goes on, the last is record ")?;
        out.extend_from_slice(last_sum(nights))?;
        return Ok(());
    }
    append_number(out, amiss)?;
    append_text(out, " amiss")
}

fn append_total(out: &mut Vec<u8>, amiss: u64, nights: &[ReadNight]) -> Result<(), NoMemory>
    ensures { OnOk result (out.new.items ≡ out.old.items ++ lines.total_line amiss nights.now) }
{
    append_text(out, "records ")?;
    append_number(out, nights.len() as u64)?;
    append_text(out, ": ")?;
    append_ending(out, amiss, nights)?;
    append_text(out, "\n")
}

/// The sum of two numbers of things in memory.
fn sum(a: usize, b: usize) -> Result<usize, NoMemory>
    ensures { IfOk result (λ n. n ≡ a + b) }
{
    match a.checked_add(b) {
        Some(n) => Ok(n),
        None => Err(NoMemory),
    }
}

/// What is printed of nights whose records were read, of others, and of what breaks the chain.
pub(crate) fn records_text(
    alloc: Global,
    bad: &[BadRecord],
    nights: &[ReadNight],
    breaks: &[ChainBreak<'_>],
) -> Result<Vec<u8>, NoMemory>
    ensures { IfOk result (λ text. text.items ≡ lines.records_text bad.now nights.now breaks.now) }
{
    let mut text = Vec::new(alloc);
    append_all_bad(alloc, &mut text, bad)?;
    append_breaks(alloc, &mut text, breaks)?;
    let amiss = sum(bad.len(), breaks.len())?;
    append_total(&mut text, amiss as u64, nights)?;
    Ok(text)
}
