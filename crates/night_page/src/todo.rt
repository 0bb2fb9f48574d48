ghost use Rattle.std.specs.Prelude.{◌≡◌, ◌≤◌, ◌++◌, IfOk, OnOk, cond, decimal, map, take};
ghost use Rattle.std.specs.List.{count_by, flat_map};
ghost use Rattle.csv.specs.Records.{fields_of};
ghost use Rattle.night_search.specs.Lines.{read};
ghost use Rattle.night_page.specs.Causes as causes;
ghost use Rattle.night_page.specs.Page as page;

use crate::causes::has_cause;
use crate::files::append_aside;
use crate::inner::append_inner;
use crate::lines::are_whole;
use crate::name::Name;
use crate::rows::subject_words;
use crate::tags::{append_fixed, append_item, append_number, append_tagged};
use csv::ByteRecord;
use hub_kinds::{NoMemory, Text};
use std::alloc::Global;

/// So many causes are shown; further ones are counted.
const MOST_CAUSES: usize = 100;

fn append_item_or_none(
    alloc: Global,
    out: &mut Vec<u8>,
    cause: &[u8],
    row: &ByteRecord,
) -> Result<(), NoMemory>
    ensures { OnOk result (out.new.items ≡ out.old.items ++ page.item_or_none cause.now (fields_of row.now)) }
{
    if has_cause(alloc, cause, row)? {
        let words = subject_words(alloc, row)?;
        append_item(alloc, out, words.as_slice())
    } else {
        Ok(())
    }
}

fn append_items(
    alloc: Global,
    out: &mut Vec<u8>,
    cause: &[u8],
    rows: &[ByteRecord],
) -> Result<(), NoMemory>
    ensures { OnOk result (out.new.items ≡ out.old.items ++ flat_map (page.item_or_none cause.now) (map fields_of rows.now)) }
{
    for i in 0..rows.len() {
        append_item_or_none(alloc, out, cause, &rows[i])?;
    }
    Ok(())
}

fn one_if(has: bool) -> usize
    ensures value { result ≡ cond has 1 0 }
    ensures small { result ≤ 1 }
{
    if has { 1 } else { 0 }
}

/// How many of `rows` have `cause`.
fn rows_with(alloc: Global, cause: &[u8], rows: &[ByteRecord]) -> Result<usize, NoMemory>
    ensures { IfOk result (λ count. count ≡ count_by (causes.has_cause cause.now) (map fields_of rows.now)) }
{
    let mut count = 0;
    for i in 0..rows.len() {
        count += one_if(has_cause(alloc, cause, &rows[i])?);
    }
    Ok(count)
}

fn append_row_count(
    alloc: Global,
    out: &mut Vec<u8>,
    cause: &[u8],
    rows: &[ByteRecord],
) -> Result<(), NoMemory>
    ensures { OnOk result (out.new.items ≡ out.old.items
        ++ decimal (count_by (causes.has_cause cause.now) (map fields_of rows.now))) }
{
    let count = rows_with(alloc, cause, rows)?;
    append_number(out, count as u64)
}

fn append_cause(
    alloc: Global,
    out: &mut Vec<u8>,
    rows: &[ByteRecord],
    cause: &[u8],
) -> Result<(), NoMemory>
    ensures { OnOk result (out.new.items ≡ out.old.items ++ page.cause_part (map fields_of rows.now) cause.now) }
{
    append_tagged(
        alloc,
        out,
        b"<details class=\"todo\"><summary>",
        cause,
        b" (",
    )?;
    append_row_count(alloc, out, cause, rows)?;
    append_fixed(out, b")</summary>\n<ul>\n")?;
    append_items(alloc, out, cause, rows)?;
    append_fixed(out, b"</ul></details>\n")
}

fn append_name(
    alloc: Global,
    out: &mut Vec<u8>,
    rows: &[ByteRecord],
    cause: &Name,
) -> Result<(), NoMemory>
    ensures { OnOk result (out.new.items ≡ out.old.items ++ page.name_part (map fields_of rows.now) cause.now) }
{
    append_cause(alloc, out, rows, cause.text.as_slice())
}

fn append_causes(
    alloc: Global,
    out: &mut Vec<u8>,
    rows: &[ByteRecord],
    causes: &[Name],
) -> Result<(), NoMemory>
    ensures { OnOk result (out.new.items ≡ out.old.items ++ flat_map (page.name_part (map fields_of rows.now)) causes.now) }
{
    for i in 0..causes.len() {
        append_name(alloc, out, rows, &causes[i])?;
    }
    Ok(())
}

fn append_further(out: &mut Vec<u8>, count: usize) -> Result<(), NoMemory>
    ensures { OnOk result (out.new.items ≡ out.old.items ++ page.further_part count) }
{
    append_fixed(out, b"<p>Further causes: ")?;
    append_number(out, count as u64)?;
    append_fixed(out, b"</p>\n")
}

fn append_others(out: &mut Vec<u8>, count: usize) -> Result<(), NoMemory>
    ensures { OnOk result (out.new.items ≡ out.old.items ++ page.others_part count) }
{
    if MOST_CAUSES < count {
        append_further(out, count - MOST_CAUSES)
    } else {
        Ok(())
    }
}

/// The first hundred of some causes.
fn first_causes(causes: &[Name]) -> &[Name]
    ensures { result.now ≡ take 100 causes.now }
{
    if MOST_CAUSES < causes.len() {
        &causes[..MOST_CAUSES]
    } else {
        causes
    }
}

/// Whether the last line of a report has no byte outside interchanges.
pub(crate) fn is_all_inside(total: &[u8]) -> bool
    ensures { result ≡ page.is_all_inside total.now }
{
    total.ends_with(b" outside 0")
}

fn append_outside(out: &mut Vec<u8>, inside: bool) -> Result<(), NoMemory>
    ensures { OnOk result (out.new.items ≡ out.old.items ++ page.outside_part inside) }
{
    if inside {
        append_fixed(out, b"")
    } else {
        append_fixed(
            out,
            b"<p class=\"todo\">Some bytes are in no interchange: see outside, in the line above.</p>\n",
        )
    }
}

fn append_none(out: &mut Vec<u8>, calm: bool, causes: &[Name]) -> Result<(), NoMemory>
    ensures { OnOk result (out.new.items ≡ out.old.items ++ page.none_part calm causes.now) }
{
    match causes {
        [] if calm => append_fixed(out, b"<p>Nothing.</p>\n"),
        _ => append_fixed(out, b""),
    }
}

/// Appends the first hundred of some causes.
fn append_shown(
    alloc: Global,
    out: &mut Vec<u8>,
    rows: &[ByteRecord],
    causes: &[Name],
) -> Result<(), NoMemory>
    ensures { OnOk result (out.new.items ≡ out.old.items
        ++ flat_map (page.name_part (map fields_of rows.now)) (take 100 causes.now)) }
{
    append_causes(alloc, out, rows, first_causes(causes))
}

/// Whether no byte is outside, each of the `lines` on files says that it went in whole, and there is no line in `inner`.
pub(crate) fn is_calm(inside: bool, lines: &[&[u8]], inner: &[Text]) -> bool
    ensures { result ≡ page.is_calm inside (read lines.now) inner.now }
{
    inside && (are_whole(lines) && inner.is_empty())
}

/// Appends what there is to do at the hub because of files of the day, by the `lines` on them, because of refused interchanges with further
/// headers, by those in `inner`, because of bytes outside, and because of `rows`, for these causes.
pub(crate) fn append_todo(
    alloc: Global,
    out: &mut Vec<u8>,
    inside: bool,
    lines: &[&[u8]],
    inner: &[Text],
    rows: &[ByteRecord],
    causes: &[Name],
) -> Result<(), NoMemory>
    ensures { OnOk result (out.new.items
        ≡ out.old.items ++ page.todo_part inside (read lines.now) inner.now (map fields_of rows.now) causes.now) }
{
    append_fixed(out, b"<h2>To do at the hub</h2>\n")?;
    append_aside(alloc, out, lines)?;
    append_inner(alloc, out, inner)?;
    append_outside(out, inside)?;
    append_none(out, is_calm(inside, lines, inner), causes)?;
    append_shown(alloc, out, rows, causes)?;
    append_others(out, causes.len())
}
