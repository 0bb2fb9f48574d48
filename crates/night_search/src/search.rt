ghost use Rattle.std.specs.Prelude.{◌≡◌, ◌↔◌, ◌++◌, ◌∷◌, [], ℕ, List, true, IfOk, OnOk, map};
ghost use Rattle.std.specs.List.{list_any};
ghost use Rattle.csv.specs.Records.{fields_of};
ghost use Rattle.night_search.specs.Search as search;

use crate::append::{append_line, append_parts};
use crate::contains::has_text;
use crate::row::append_row;
use crate::unread::append_unread;
use csv::ByteRecord;
use hub_kinds::NoMemory;
use std::alloc::Global;
use std::marker::Model;
use track_read::NightTable;

/// What a search has found so far.
#[derive(Drop)]
pub struct Search {
    lines: Vec<u8>,
    found: bool,
    all_read: bool,
}

impl Model for Search {
    ghost use Rattle.night_search.specs.Search.{SearchValue};

    ghost Value = { SearchValue };

    ghost view = { λ s. record { lines = s.lines.items; found = s.found; all_read = s.all_read } };
}

/// What is printed of a search.
#[derive(Drop)]
pub struct Found {
    pub text: Vec<u8>,
    /// Whether a row was found and each table was read.
    pub is_complete: bool,
}

/// Appends the line on a row to `out` if its document has `text`, and gives whether it has.
fn append_if_found(
    alloc: Global,
    out: &mut Vec<u8>,
    text: &[u8],
    night: &[u8],
    row: &ByteRecord,
) -> Result<bool, NoMemory>
    ensures lines { OnOk result (out.new.items ≡ out.old.items ++ search.line_or_none text.now night.now (fields_of row.now)) }
    ensures found { IfOk result (λ found. found ≡ search.has_text text.now (fields_of row.now)) }
{
    let found = has_text(row, text);
    if found {
        append_row(alloc, out, night, row)?;
    }
    Ok(found)
}

/// Appends a line for each of `rows` whose document has `text`, and gives whether one has.
fn append_found(
    alloc: Global,
    out: &mut Vec<u8>,
    text: &[u8],
    night: &[u8],
    rows: &[ByteRecord],
) -> Result<bool, NoMemory>
    ensures lines { OnOk result (out.new.items ≡ out.old.items ++ search.found_lines text.now night.now (map fields_of rows.now)) }
    ensures found { IfOk result (λ found. found ≡ list_any (search.has_text text.now) (map fields_of rows.now)) }
{
    let mut found = false;
    for i in 0..rows.len() {
        let has = append_if_found(alloc, out, text, night, &rows[i])?;
        found = found || has;
    }
    Ok(found)
}

/// Appends the lines on `table`, and gives whether a row was found.
fn append_night(
    alloc: Global,
    out: &mut Vec<u8>,
    text: &[u8],
    table: &NightTable,
) -> Result<bool, NoMemory>
    ensures lines { OnOk result (out.new.items ≡ out.old.items ++ search.night_lines text.now table.now) }
    ensures found { IfOk result (λ found. found ≡ search.has_row text.now table.now) }
{
    let found = append_found(alloc, out, text, table.night.as_slice(), table.state.rows())?;
    append_unread(alloc, out, table)?;
    Ok(found)
}

/// Appends that no document has `text` if `lines` is empty.
fn lines_or_none(alloc: Global, text: &[u8], lines: Vec<u8>) -> Result<Vec<u8>, NoMemory>
    ensures { IfOk result (λ all. all.items ≡ search.lines_or_none text.now lines.items) }
{
    if lines.len() > 0 {
        return Ok(lines);
    }
    let mut words = Vec::new(alloc);
    append_parts(&mut words, &[b"no document has ", text])?;
    let mut all = Vec::new(alloc);
    append_line(&mut all, words.as_slice())?;
    Ok(all)
}

impl Search {
    ghost use Rattle.std.specs.Prelude.{◌≡◌, ◌↔◌, ◌++◌, ◌∷◌, [], ℕ, List, true, IfOk, OnOk};
    ghost use Rattle.night_search.specs.Search as search;
    ghost use Rattle.track_read.specs.declared.night.NightTable.{NightTable};

    /// A search of no night yet.
    pub fn new(alloc: Global) -> Search
        ensures { (text : List ℕ) → search.IsSearch text [] result }
    {
        Search {
            lines: Vec::new(alloc),
            found: false,
            all_read: true,
        }
    }

    /// Searches `table` for `text`. The only error is out of memory.
    pub fn add(&mut self, alloc: Global, text: &[u8], table: &NightTable) -> Result<(), NoMemory>
        ensures { OnOk result ((tables : List NightTable) → search.IsSearch text.now tables self.old
            → search.IsSearch text.now (tables ++ table.now ∷ []) self.new) }
    {
        let found = append_night(alloc, &mut self.lines, text, table)?;
        self.found = self.found || found;
        self.all_read = self.all_read && table.state.is_read();
        Ok(())
    }

    /// What is printed of the search for `text`. The only error is out of memory.
    pub fn report(self, alloc: Global, text: &[u8]) -> Result<Found, NoMemory>
        ensures text { IfOk result (λ found. (tables : List NightTable) → search.IsSearch text.now tables self
            → found.text.items ≡ search.search_text text.now tables) }
        ensures complete { IfOk result (λ found. (tables : List NightTable) → search.IsSearch text.now tables self
            → (found.is_complete ≡ true) ↔ ((search.is_found text.now tables ≡ true) × (search.are_read tables ≡ true))) }
    {
        let is_complete = self.found && self.all_read;
        Ok(Found {
            text: lines_or_none(alloc, text, self.lines)?,
            is_complete,
        })
    }
}
