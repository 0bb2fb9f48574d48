ghost use Rattle.std.specs.Prelude.{◌≡◌, ◌++◌, IfOk, codes};
ghost use Rattle.day_command.specs.Tables as tables;

use hub_kinds::{Items, NoMemory, Text, copy_text};
use night_folder::read_paper;
use night_marks::NightMark;
use std::alloc::Global;
use std::rt::Files;
use track_read::{NightTable, TableState, read_state};

/// The name of the table of the night `night` in the folder of all nights.
fn table_name(alloc: Global, night: &[u8]) -> Result<Text, NoMemory>
    ensures { IfOk result (λ name. name ≡ night.now ++ codes "/track.csv") }
{
    let mut name = Vec::from_slice(alloc, night)?;
    name.extend_from_slice(b"/track.csv")?;
    Ok(Items::from_vec(name))
}

/// Reads the table of a night of the folder at the path `nights`. The only error is out of memory.
pub(crate) fn table_at<R: Files + AllocGlobal>(
    rt: &R,
    nights: &[u8],
    mark: &NightMark,
) -> Result<NightTable, NoMemory>
    ensures { IfOk result (tables.IsTableAt nights.now mark.now) }
{
    let night = mark.name.as_slice();
    let name = table_name(rt.alloc(), night)?;
    let file = read_paper(rt, nights, name.as_slice())?;
    Ok(NightTable {
        night: copy_text(rt.alloc(), night)?,
        state: read_state(rt.alloc(), file.bytes())?,
    })
}

/// Reads the table of the night in the folder at the path `night`. The only error is out of memory.
pub(crate) fn state_at<R: Files + AllocGlobal>(rt: &R, night: &[u8]) -> Result<TableState, NoMemory>
    ensures { IfOk result (tables.IsStateAt night.now) }
{
    let file = read_paper(rt, night, b"track.csv")?;
    read_state(rt.alloc(), file.bytes())
}
