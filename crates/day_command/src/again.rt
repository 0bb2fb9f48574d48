ghost use Rattle.std.specs.Prelude.{◌≡◌, IfErr, IfOk};
ghost use Rattle.day_command.specs.Again as again;
ghost use Rattle.day_command.specs.Failure.{IsBefore};

use crate::failure::Failure;
use crate::page::night_path;
use hub_kinds::NoMemory;
use night_folder::read_paper;
use sets_again::{Wanted, sets_again};
use std::alloc::Global;
use std::rt::Files;
use track_read::read_table;

/// What is printed of the sets of a night that go in again.
#[derive(Drop)]
pub(crate) struct Again {
    /// The input of these sets.
    pub(crate) text: Vec<u8>,
    /// The line on standard error; empty if there is such a set.
    pub(crate) line: Vec<u8>,
    /// There is such a set.
    pub(crate) is_found: bool,
}

/// The input of the sets that go in again, of the night in the folder at the path `night`.
fn text_at<R: Files + AllocGlobal>(rt: &R, night: &[u8], wanted: Wanted) -> Result<Vec<u8>, Failure>
    ensures again { IfOk result (λ text. again.IsAgainIn night.now wanted text.items) }
    ensures before { IfErr result IsBefore }
{
    let input = read_paper(rt, night, b"from/in.x12")?;
    let table = read_paper(rt, night, b"track.csv")?;
    let Some(text) = input.bytes() else {
        return Err(Failure::Papers);
    };
    let Some(bytes) = table.bytes() else {
        return Err(Failure::Papers);
    };
    let Some(rows) = read_table(rt.alloc(), bytes)? else {
        return Err(Failure::Papers);
    };
    Ok(sets_again(rt.alloc(), text, rows.as_slice(), wanted)?)
}

/// The line that is printed if no set goes in again.
fn none_line(wanted: Wanted) -> &'static [u8]
    ensures { result.now ≡ again.none_line wanted }
{
    match wanted {
        Wanted::HeldForRoute => {
            b"nighthub_day: no set of the night was held for lack of a route\n"
        }
        Wanted::Rejected => b"nighthub_day: no set of the night was rejected\n",
    }
}

fn line_for(wanted: Wanted, text: &[u8]) -> &'static [u8]
    ensures { result.now ≡ again.line_for wanted text.now }
{
    match text {
        [] => none_line(wanted),
        [..] => b"",
    }
}

/// What is printed of the sets that go in again, of the night `name` of the folder at the path `nights`.
pub(crate) fn again_of<R: Files + AllocGlobal>(
    rt: &R,
    nights: &str,
    name: &str,
    wanted: Wanted,
) -> Result<Again, Failure>
    ensures again { IfOk result (again.IsAgainOf nights.now name.now wanted) }
    ensures before { IfErr result IsBefore }
{
    let path = night_path(rt.alloc(), nights.as_bytes(), name.as_bytes())?;
    let text = text_at(rt, path.as_slice(), wanted)?;
    let line = Vec::from_slice(rt.alloc(), line_for(wanted, text.as_slice()))?;
    let is_found = !text.is_empty();
    Ok(Again {
        text,
        line,
        is_found,
    })
}
