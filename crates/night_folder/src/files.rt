ghost use Rattle.std.specs.Prelude.{◌≡◌, IfOk, IfSome};
ghost use Rattle.night_folder.specs.Nights.{AreFilesAt, AreLeftAt, AreMadeOfAt};

use crate::paper::{PaperAt, read_paper};
use crate::sums::found_sums;
use hub_kinds::{Items, NoMemory};
use night_entries::NamedSum;
use std::rt::Files;

/// The files of which a night was made.
#[derive(Drop)]
pub struct MadeOf {
    pub setup: PaperAt,
    /// The counters that it begins with.
    pub counters: PaperAt,
    pub input: PaperAt,
    /// The sum of its input.
    pub input_sum: PaperAt,
    /// The sets that it was asked for again; a night without this file was asked for none.
    pub again: PaperAt,
}

/// The files that a night left.
#[derive(Drop)]
pub struct Left {
    /// The counters that the next night begins with.
    pub next_counters: PaperAt,
    /// The sums of what it gave.
    pub sums: PaperAt,
    /// The table of its sets.
    pub track: PaperAt,
    /// The sums of the files that are there; none if its folder out/ can't be listed.
    pub found: Option<Items<NamedSum>>,
}

/// The files of a night.
#[derive(Drop)]
pub struct NightFiles {
    pub made: MadeOf,
    pub left: Left,
}

fn read_made_of<R: Files + AllocGlobal>(rt: &R, folder: &[u8]) -> Result<MadeOf, NoMemory>
    ensures { IfOk result (AreMadeOfAt folder.now) }
{
    Ok(MadeOf {
        setup: read_paper(rt, folder, b"from/setup.toml")?,
        counters: read_paper(rt, folder, b"from/counters.toml")?,
        input: read_paper(rt, folder, b"from/in.x12")?,
        input_sum: read_paper(rt, folder, b"from/in.sum")?,
        again: read_paper(rt, folder, b"from/again.csv")?,
    })
}

fn read_left<R: Files + AllocGlobal + Clone + Drop>(rt: &R, folder: &[u8]) -> Result<Left, NoMemory>
    ensures { IfOk result (AreLeftAt folder.now) }
{
    Ok(Left {
        next_counters: read_paper(rt, folder, b"out/counters.toml")?,
        sums: read_paper(rt, folder, b"sums")?,
        track: read_paper(rt, folder, b"track.csv")?,
        found: found_sums(rt, folder)?,
    })
}

/// Reads the files of the night in `folder`.
pub(crate) fn read_files<R: Files + AllocGlobal + Clone + Drop>(
    rt: &R,
    folder: &[u8],
) -> Result<NightFiles, NoMemory>
    ensures { IfOk result (AreFilesAt folder.now) }
{
    Ok(NightFiles {
        made: read_made_of(rt, folder)?,
        left: read_left(rt, folder)?,
    })
}
