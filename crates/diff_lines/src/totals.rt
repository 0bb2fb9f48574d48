ghost use Rattle.std.specs.Prelude.{◌≡◌, ◌≤◌, ◌++◌, IfOk, OnOk, if◌then◌else◌};
ghost use Rattle.std.specs.List.{flat_map};
ghost use Rattle.guide_tree.specs.Words.{guide_of, nodes_view};
ghost use Rattle.guide_widening.specs.Differences.{differences};
ghost use Rattle.diff_lines.specs.Lines as lines;
ghost use Rattle.diff_lines.specs.Paths.{paths_of};

use crate::lines::append_line;
use crate::paths::paths_of;
use crate::values::{append, append_number};
use guide_tree::Guide;
use guide_widening::{Change, Difference};
use hub_kinds::{NoMemory, Text};
use std::alloc::Global;

fn is_change(one: Change, other: Change) -> bool
    ensures { result ≡ lines.is_change one other }
{
    match (one, other) {
        (Change::Narrower, Change::Narrower)
        | (Change::Wider, Change::Wider)
        | (Change::Other, Change::Other) => true,
        _ => false,
    }
}

fn one_if(is: bool) -> u64
    ensures value { result ≡ (if is then 1 else 0) }
    ensures few { result ≤ 1 }
{
    if is { 1 } else { 0 }
}

/// How many of `found` are of a kind.
fn count_of(change: Change, found: &[Difference]) -> u64
    ensures { result ≡ lines.count_of change found.now }
{
    let mut count = 0;
    for i in 0..found.len() {
        count += one_if(is_change(change, found[i].change));
    }
    count
}

fn append_totals(out: &mut Vec<u8>, found: &[Difference]) -> Result<(), NoMemory>
    ensures { OnOk result (out.new.items ≡ out.old.items ++ lines.totals_line found.now) }
{
    append_number(out, count_of(Change::Narrower, found))?;
    append(out, b" narrower, ")?;
    append_number(out, count_of(Change::Wider, found))?;
    append(out, b" wider, ")?;
    append_number(out, count_of(Change::Other, found))?;
    append(out, b" other\n")
}

fn append_lines(
    alloc: Global,
    out: &mut Vec<u8>,
    old: &[Text],
    new: &[Text],
    found: &[Difference],
) -> Result<(), NoMemory>
    ensures { OnOk result (out.new.items ≡ out.old.items ++ flat_map (lines.difference_line old.now new.now) found.now) }
{
    for i in 0..found.len() {
        append_line(alloc, out, old, new, &found[i])?;
    }
    Ok(())
}

/// All that is printed of the guides `old` and `new`, of which `found` are the differences. The only error is out of memory.
pub fn diff_text(
    alloc: Global,
    old: &Guide,
    new: &Guide,
    found: &[Difference],
) -> Result<Vec<u8>, NoMemory>
    ensures { found.now ≡ differences (guide_of old.now) (guide_of new.now)
        → IfOk result (λ text. text.items ≡ lines.diff_text (guide_of old.now) (guide_of new.now)) }
{
    let before = paths_of(alloc, &old.rows().nodes)?;
    let after = paths_of(alloc, &new.rows().nodes)?;
    let mut text = Vec::new(alloc);
    append_lines(alloc, &mut text, before.as_slice(), after.as_slice(), found)?;
    append_totals(&mut text, found)?;
    Ok(text)
}
