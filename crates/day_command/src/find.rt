ghost use Rattle.std.specs.Prelude.{◌≡◌, ◌↔◌, ◌⊎◌, List, true, IfErr, IfOk, map};
ghost use Rattle.std.specs.List.{AllZip};
ghost use Rattle.night_search.specs.Search.{IsSearch};
ghost use Rattle.track_read.specs.declared.night.NightTable.{NightTable};
ghost use Rattle.day_command.specs.Failure.{IsBefore};
ghost use Rattle.day_command.specs.Outcome.{IsSearchReport};
ghost use Rattle.day_command.specs.Tables.{IsTableAt};

use crate::failure::Failure;
use crate::tables::table_at;
use hub_kinds::NoMemory;
use night_marks::{NightMark, in_order, unarchived};
use night_review::{Report, nights_at};
use night_search::Search;
use std::rt::Files;

/// Searches the table of each night of `order` for `text`. The nights are in the folder at the path `nights`.
fn search_nights<R: Files + AllocGlobal>(
    rt: &R,
    nights: &[u8],
    order: &[&NightMark],
    text: &[u8],
) -> Result<Search, NoMemory>
    ensures { IfOk result (λ search. (tables : List NightTable)
        × AllZip (IsTableAt nights.now) (map (λ n. n.now) order.now) tables × IsSearch text.now tables search) }
{
    let mut search = Search::new(rt.alloc());
    for i in 0..order.len() {
        let table = table_at(rt, nights, order[i])?;
        search.add(rt.alloc(), text, &table)?;
    }
    Ok(search)
}

/// The status: 0 if `is_complete`, otherwise 1.
pub(crate) fn status_of(is_complete: bool) -> u8
    ensures zero { (result ≡ 0) ↔ (is_complete ≡ true) }
    ensures values { (result ≡ 0) ⊎ (result ≡ 1) }
{
    if is_complete { 0 } else { 1 }
}

/// What is printed of a search for `text` in the nights of the folder at the path `nights`, and the status.
pub(crate) fn find_nights<R: Files + AllocGlobal + Clone + Drop>(
    rt: &R,
    nights: &str,
    text: &str,
) -> Result<Report, Failure>
    ensures report { IfOk result (λ report. IsSearchReport nights.now text.now report.text.items report.status) }
    ensures values { IfOk result (λ report. (report.status ≡ 0) ⊎ (report.status ≡ 1)) }
    ensures before { IfErr result IsBefore }
{
    let marks = nights_at(rt, nights)?;
    let order = in_order(rt.alloc(), marks.as_slice())?;
    let left = unarchived(rt.alloc(), order.as_slice())?;
    let path = nights.as_bytes();
    let wanted = text.as_bytes();
    let search = search_nights(rt, path, left.as_slice(), wanted)?;
    let found = search.report(rt.alloc(), wanted)?;
    Ok(Report {
        text: found.text,
        status: status_of(found.is_complete),
    })
}
