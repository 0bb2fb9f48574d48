ghost use Rattle.std.specs.Prelude.{◌≡◌, ◌==◌, ◌++◌, true, false, IfOk, IsErrOf, OnOk, OnErr, List, map};
ghost use Rattle.std.specs.List.{list_all};
ghost use Rattle.csv.specs.Records.{fields_of};
ghost use Rattle.sets_again.specs.Again as sets;
ghost use Rattle.sets_again.specs.Fits as fit;
ghost use Rattle.sets_again.specs.Rows as table;
ghost use Rattle.sets_again.specs.declared.fault.AgainFault.TheVariants.{Unfit};

use crate::fault::AgainFault;
use crate::fits::{groups_fit, parted};
use crate::rows::{are_refused, count_at, firsts, has_outcome};
use crate::text::append_part;
use crate::wanted::Wanted;
use csv::ByteRecord;
use env_index::{Index, Interchange, index_plain};
use hub_kinds::{NoMemory, within_limit};
use std::alloc::Global;

/// Which of the sets with these first rows are chosen.
fn chosen_of(alloc: Global, wanted: Wanted, rows: &[&ByteRecord]) -> Result<Vec<bool>, NoMemory>
    ensures { IfOk result (λ chosen. chosen.items ≡ map (table.is_wanted wanted) (map (λ r. fields_of r.now) rows.now)) }
{
    let mut chosen = Vec::new(alloc);
    for row in rows {
        chosen.push(has_outcome(row, wanted.words()))?;
    }
    Ok(chosen)
}

/// Appends what there is of an interchange that isn't refused, with its `rows`, and says whether they fit it.
fn append_sets(
    alloc: Global,
    out: &mut Vec<u8>,
    wanted: Wanted,
    text: &[u8],
    interchange: &Interchange<'_>,
    rows: &[ByteRecord],
) -> Result<bool, NoMemory>
    requires { table.are_refused (map fields_of rows.now) ≡ false }
    ensures fits { IfOk result (λ fits. fits ≡ fit.rows_fit interchange.now (map fields_of rows.now)) }
    ensures text { OnOk result (out.new.items
        ≡ out.old.items ++ sets.part_of wanted text.now interchange.now (map fields_of rows.now)) }
{
    let first = firsts(alloc, rows)?;
    let chosen = chosen_of(alloc, wanted, first.as_slice())?;
    append_part(out, text, interchange, chosen.as_slice())?;
    Ok(groups_fit(interchange, first.as_slice()))
}

/// Appends what there is of an interchange with its `rows`, and says whether they fit it.
fn append_one(
    alloc: Global,
    out: &mut Vec<u8>,
    wanted: Wanted,
    text: &[u8],
    interchange: &Interchange<'_>,
    rows: &[ByteRecord],
) -> Result<bool, NoMemory>
    ensures fits { IfOk result (λ fits. fits ≡ fit.rows_fit interchange.now (map fields_of rows.now)) }
    ensures text { OnOk result (out.new.items
        ≡ out.old.items ++ sets.part_of wanted text.now interchange.now (map fields_of rows.now)) }
{
    if are_refused(rows) {
        Ok(rows.len() == 1)
    } else {
        append_sets(alloc, out, wanted, text, interchange, rows)
    }
}

/// Appends what there is of the interchanges of an index with the rows of a table, and says whether they fit them.
fn append_all(
    alloc: Global,
    out: &mut Vec<u8>,
    wanted: Wanted,
    index: &Index<'_>,
    rows: &[ByteRecord],
) -> Result<bool, NoMemory>
    ensures fits { IfOk result (λ fits. fits ≡ fit.table_fits index.now.entries (map fields_of rows.now)) }
    ensures text { IfOk result (λ fits. fits ≡ true → out.new.items
        ≡ out.old.items ++ sets.again_text wanted index.now.text index.now.entries (map fields_of rows.now)) }
{
    let entries = index.interchanges();
    let text = index.text();
    let mut rest = rows;
    for i in 0..entries.len() {
        let interchange = entries[i].interchange();
        let (here, after) = parted(rest, count_at(rest, interchange.start()));
        if !append_one(alloc, out, wanted, text, interchange, here)? {
            return Ok(false);
        }
        rest = after;
    }
    Ok(rest.is_empty())
}

fn are_line_feeds(text: &[u8]) -> bool
    ensures { result ≡ list_all (λ b. b == 10) text.now }
{
    text.iter().all(|byte| *byte == b'\n')
}

/// Whether the input `text` is `again`, and line feeds after it.
fn is_all_of(again: &[u8], text: &[u8]) -> bool
    ensures { result ≡ sets.is_all_of again.now text.now }
{
    match text.strip_prefix(again) {
        None => false,
        Some(rest) => are_line_feeds(rest),
    }
}

/// Ends what goes in again by a line feed, so that it isn't the input `text`.
fn with_line_end(alloc: Global, again: Vec<u8>, text: &[u8]) -> Result<Vec<u8>, NoMemory>
    ensures { IfOk result (λ printed. printed.items ≡ sets.with_line_end again.items text.now) }
{
    if again.is_empty() {
        return Ok(again);
    }
    let mut printed = if is_all_of(again.as_slice(), text) {
        Vec::from_slice(alloc, text)?
    } else {
        again
    };
    printed.push(b'\n')?;
    Ok(printed)
}

/// The sets of `text` that go in again by the outcomes in `rows`, the rows of its table, as an input; it is empty if there is no such
/// set. Errors: the rows aren't those of `text`, or it has more than 4,294,967,295 bytes; or out of memory.
pub fn sets_again(
    alloc: Global,
    text: &[u8],
    rows: &[ByteRecord],
    wanted: Wanted,
) -> Result<Vec<u8>, AgainFault>
    ensures again { IfOk result (λ printed. sets.IsAgain wanted text.now (map fields_of rows.now) printed.items) }
    ensures unfit { IsErrOf result Unfit → sets.IsUnfit text.now (map fields_of rows.now) }
{
    if !within_limit(text.len() as u64) {
        return Err(AgainFault::Unfit);
    }
    let index = index_plain(alloc, text)?;
    let mut again = Vec::new(alloc);
    if append_all(alloc, &mut again, wanted, &index, rows)? {
        Ok(with_line_end(alloc, again, text)?)
    } else {
        Err(AgainFault::Unfit)
    }
}
