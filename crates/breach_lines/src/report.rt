ghost use Rattle.std.specs.Prelude.{◌≡◌, ◌++◌, ◌+◌, ◌<◌, ◌^◌, IfOk, OnOk, length};
ghost use Rattle.breach_lines.specs.Lines as lines;

use crate::breaches::append_breaches;
use crate::others::{append_bad_files, append_links};
use crate::words::{append_number, append_text};
use hub_kinds::NoMemory;
use night_breaches::Breach;
use night_marks::{BadFile, BrokenLink};
use std::alloc::Global;

fn append_counts(out: &mut Vec<u8>, nights: u64, addresses: u64) -> Result<(), NoMemory>
    ensures { OnOk result (out.new.items ≡ out.old.items ++ lines.count_words nights addresses) }
{
    append_text(out, "nights ")?;
    append_number(out, nights)?;
    append_text(out, ", addresses ")?;
    append_number(out, addresses)?;
    append_text(out, ": ")
}

fn append_ending(out: &mut Vec<u8>, found: u64) -> Result<(), NoMemory>
    ensures { OnOk result (out.new.items ≡ out.old.items ++ lines.ending found) }
{
    if found == 0 {
        append_text(out, "each goes on\n")
    } else {
        append_number(out, found)?;
        append_text(out, " amiss\n")
    }
}

fn append_total(out: &mut Vec<u8>, nights: u64, addresses: u64, found: u64) -> Result<(), NoMemory>
    ensures { OnOk result (out.new.items ≡ out.old.items ++ lines.total_line nights addresses found) }
{
    append_counts(out, nights, addresses)?;
    append_ending(out, found)
}

/// The sum of two numbers of breaches, which are in memory.
fn sum(a: usize, b: usize) -> Result<usize, NoMemory>
    ensures { IfOk result (λ n. n ≡ a + b) }
{
    match a.checked_add(b) {
        Some(n) => Ok(n),
        None => Err(NoMemory),
    }
}

/// What is printed of `nights` nights with `addresses` addresses: the lines on bad files, on nights that don't name the night before them
/// and on breaches, and the totals. The only error is out of memory.
pub fn report_text(
    alloc: Global,
    nights: u64,
    addresses: u64,
    bad: &[BadFile],
    links: &[BrokenLink<'_>],
    found: &[Breach<'_>],
) -> Result<Vec<u8>, NoMemory>
    ensures { IfOk result (λ text. text.items ≡ lines.report_text nights addresses bad.now links.now found.now) }
{
    let mut text = Vec::new(alloc);
    append_bad_files(alloc, &mut text, bad)?;
    append_links(alloc, &mut text, links)?;
    append_breaches(alloc, &mut text, found)?;
    let found = sum(bad.len(), sum(links.len(), found.len())?)?;
    append_total(&mut text, nights, addresses, found as u64)?;
    Ok(text)
}
