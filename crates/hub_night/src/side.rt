ghost use Rattle.std.specs.Prelude.{◌≡◌, ◌++◌, IfOk};
ghost use Rattle.hub_night.specs.Night as night;

use crate::day::Day;
use crate::made::{came_files, file_of};
use hub_kinds::{Items, NoMemory, Text, copy_text};
use night_shelf::NightFile;
use std::alloc::Global;

/// What is kept of a night beside what it gives.
#[derive(Drop)]
pub struct Side {
    pub folder: Text,
    pub tables: Items<NightFile>,
    /// What came in: the list of the files, what is asked for again, and the input; and the sum of the program.
    pub came: Items<NightFile>,
    /// The lines on guides that have changed, and a line for each file of the day.
    pub lines: Text,
    /// 0 if the night is clean, and each file of the day went in whole; otherwise 1.
    pub status: u8,
}

fn status_by(status: u8, is_whole: bool) -> u8
    ensures { result ≡ night.status_by status is_whole }
{
    if is_whole { status } else { 1 }
}

/// The text of `first`, and after it that of `second`.
pub fn joined(alloc: Global, first: &[u8], second: &[u8]) -> Result<Text, NoMemory>
    ensures { IfOk result (λ text. text ≡ first.now ++ second.now) }
{
    let mut text = Vec::from_slice(alloc, first)?;
    text.extend_from_slice(second)?;
    Ok(Items::from_vec(text))
}

/// The tables of a night with two files more: `guides`, the lines on guides that have changed, and `files`, those on the files of the day.
fn with_lines(
    alloc: Global,
    tables: Items<NightFile>,
    guides: &[u8],
    files: &[u8],
) -> Result<Vec<NightFile>, NoMemory>
    ensures { IfOk result (λ all. all.items ≡ night.with_lines tables guides.now files.now) }
{
    let mut all = tables.into_vec();
    all.push(file_of(alloc, b"guides.txt", copy_text(alloc, guides)?)?)?;
    all.push(file_of(alloc, b"files.txt", copy_text(alloc, files)?)?)?;
    Ok(all)
}

/// What is kept of the night in the folder `folder` beside what it gives: what came in, the sum `program`, and with `tables` the lines
/// `changes`, on guides that have changed, and those on the files of the day.
pub(crate) fn side_of(
    alloc: Global,
    folder: Text,
    tables: Items<NightFile>,
    status: u8,
    day: Day,
    changes: &[u8],
    program: &[u8],
) -> Result<Side, NoMemory>
    ensures { IfOk result (night.IsSideOf folder tables status day changes.now program.now) }
{
    let Day {
        listing,
        again,
        input,
        lines,
        is_whole,
    } = day;
    let came = came_files(alloc, listing, again, input, program)?;
    let tables = with_lines(alloc, tables, changes, lines.as_slice())?;
    Ok(Side {
        folder,
        tables: Items::from_vec(tables),
        came: Items::from_vec(came),
        lines: joined(alloc, changes, lines.as_slice())?,
        status: status_by(status, is_whole),
    })
}
