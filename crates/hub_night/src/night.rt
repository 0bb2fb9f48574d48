ghost use Rattle.std.specs.Prelude.{◌≡◌, IfErr, IfOk};
ghost use Rattle.kept_files.specs.Files.{AreKeptFiles};
ghost use Rattle.night_command.specs.CommandLine.{CanShare};
ghost use Rattle.hub_folder.specs.Failure.{IsBefore};
ghost use Rattle.hub_night.specs.Night as night;

use crate::day::Day;
use crate::entry::{NightBytes, entry_in};
use crate::made::{file_of, made_files};
use crate::setting::Setting;
use crate::side::{Side, side_of};
use crate::sound::check_sound;
use crate::stopping::{failure_of, of_record};
use crate::tables::tables_of;
use hub_folder::{Chain, Failure, HubPapers, Older, next_after};
use hub_kinds::{Items, NoMemory, Text, copy_text};
use hub_ledger::NightEntry;
use hub_tonight::{Call, HubFiles, Tonight, tonight};
use kept_files::{Heading, kept_files};
use night_marks::NightMark;
use night_record::AddressNext;
use night_shelf::{KeptNight, NightFile};
use std::alloc::Global;
use std::sync::Wait;
use std::thread::Threads;
use std::time::Clock;
use system_io::RELEASE;

/// A night that is made, and isn't kept yet.
#[derive(Drop)]
pub struct Made {
    /// Its folder and its files.
    pub night: KeptNight,
    pub number: u32,
    /// The lines on guides that have changed, and a line for each file of the day.
    pub lines: Text,
    /// The last line of its report.
    pub total: Text,
    /// 0 if it is clean, and each file of the day went in whole; otherwise 1.
    pub status: u8,
}

/// The files of the hub as bytes.
fn hub_files<'a>(papers: &'a HubPapers) -> HubFiles<'a>
    ensures { night.AreHubFiles papers.entry.now result }
{
    HubFiles {
        setup: papers.setup.bytes_or_none(),
        guides: papers.guides.as_slice(),
    }
}

/// The night of an input.
fn tonight_of<R: Threads + Wait + Clock + Sync>(
    rt: &R,
    alloc: Global,
    setting: &Setting<'_>,
    papers: &HubPapers,
    nights: &[NightEntry],
    input: &[u8],
) -> Result<Tonight, Failure>
    requires sharing { CanShare setting.now.sharing }
    ensures tonight { IfOk result (night.IsTonightOf setting.now papers.now nights.now input.now) }
    ensures before { IfErr result IsBefore }
{
    let call = Call {
        files: hub_files(papers),
        nights,
        first: papers.first.bytes_or_none(),
        input,
        at: &setting.at,
        sharing: setting.sharing,
    };
    match tonight(rt, alloc, &call) {
        Ok(made) => Ok(made),
        Err(stopped) => Err(failure_of(alloc, setting.hub, papers.guides.as_slice(), stopped)?),
    }
}

/// A night whose files are named as they are in its folder.
#[derive(Drop)]
pub struct Laid {
    /// The files that it gives, and the total.
    pub given: Items<NightFile>,
    pub counters: Text,
    pub total: Text,
    pub track: Text,
    pub status: u8,
    pub left: Items<AddressNext>,
}

fn laid_out(alloc: Global, tonight: Tonight) -> Result<Laid, NoMemory>
    ensures { IfOk result (night.IsLaidOf tonight) }
{
    let Tonight {
        counters,
        out,
        total,
        track,
        status,
        left,
    } = tonight;
    let mut given = out.into_vec();
    let line = copy_text(alloc, total.as_slice())?;
    given.push(file_of(alloc, b"total", line)?)?;
    Ok(Laid {
        given: Items::from_vec(given),
        counters,
        total,
        track,
        status,
        left,
    })
}

/// What is kept of the night in the folder `folder`.
fn entry_of_night(
    alloc: Global,
    setting: &Setting<'_>,
    folder: &[u8],
    papers: &HubPapers,
    laid: &Laid,
    input: &[u8],
    again: &[u8],
) -> Result<NightEntry, Failure>
    ensures entry { IfOk result (night.IsEntryOfNight setting.now folder.now papers.now laid.now input.now again.now) }
    ensures before { IfErr result IsBefore }
{
    entry_in(
        alloc,
        &NightBytes {
            name: folder,
            at: setting.at.digits(),
            setup: papers.setup.bytes_or_none(),
            counters: laid.counters.as_slice(),
            input,
            track: laid.track.as_slice(),
            again,
            given: laid.given.as_slice(),
        },
    )
}

/// The mark of the night in the folder `folder`, after the night in the folder `before`.
fn mark_of(
    alloc: Global,
    setting: &Setting<'_>,
    folder: &[u8],
    before: &[u8],
) -> Result<NightMark, NoMemory>
    ensures { IfOk result (λ mark. mark ≡ night.mark_of folder.now setting.now.at before.now) }
{
    Ok(NightMark {
        name: copy_text(alloc, folder)?,
        moment: copy_text(alloc, setting.at.digits())?,
        before: copy_text(alloc, before)?,
        is_archived: false,
    })
}

/// All files of a night.
fn files_of(
    alloc: Global,
    heading: &Heading<'_>,
    made: Vec<NightFile>,
    given: Items<NightFile>,
    tables: Vec<NightFile>,
) -> Result<Vec<NightFile>, Failure>
    ensures files { IfOk result (λ files. AreKeptFiles heading.now made.items given tables.items files.items) }
    ensures before { IfErr result IsBefore }
{
    match kept_files(alloc, heading, made, given.into_vec(), tables) {
        Ok(files) => Ok(files),
        Err(fault) => Err(of_record(fault)),
    }
}

/// The heading of a night's record.
fn heading_of<'a>(
    setting: &'a Setting<'a>,
    number: u32,
    chain: &'a Chain,
    status: u8,
) -> Heading<'a>
    ensures { night.IsHeadingOf setting.entry.now number chain.entry.now status result }
{
    Heading {
        number,
        name: setting.name,
        moment: setting.at.digits(),
        before: chain.before.as_slice(),
        before_sum: match &chain.before_sum {
            None => None,
            Some(sum) => Some(sum.as_slice()),
        },
        release: RELEASE.as_bytes(),
        clock: setting.clock,
        status,
    }
}

/// All files of the night that is laid out, made of the files of the hub and of what came in.
fn all_files(
    alloc: Global,
    heading: &Heading<'_>,
    papers: &HubPapers,
    laid: Laid,
    tables: Vec<NightFile>,
    came: Items<NightFile>,
) -> Result<Vec<NightFile>, Failure>
    ensures files { IfOk result (λ files. night.AreFilesOf heading.now papers.now laid tables.items came files.items) }
    ensures before { IfErr result IsBefore }
{
    let Laid {
        given,
        counters,
        total: _,
        track: _,
        status: _,
        left: _,
    } = laid;
    let made = made_files(
        alloc,
        papers.setup.bytes_or_none(),
        papers.guides.as_slice(),
        counters,
        came,
    )?;
    files_of(alloc, heading, made, given, tables)
}

/// A night of which it isn't known yet whether all nights continue with it.
#[derive(Drop)]
pub struct Draft {
    pub number: u32,
    pub folder: Text,
    pub laid: Laid,
    /// What is kept of it.
    pub entry: NightEntry,
    pub tables: Items<NightFile>,
}

/// The draft of the night of `setting` after the older ones, by the files of the hub and an input. The table `again` has the sets that are
/// asked for again.
pub(crate) fn draft_of<R: Threads + Wait + Clock + Sync>(
    rt: &R,
    alloc: Global,
    setting: &Setting<'_>,
    older: &Older<'_>,
    papers: &HubPapers,
    input: &[u8],
    again: &[u8],
) -> Result<Draft, Failure>
    requires sharing { CanShare setting.now.sharing }
    ensures draft { IfOk result (night.IsDraftOf setting.now older.now papers.now input.now again.now) }
    ensures before { IfErr result IsBefore }
{
    let (number, folder) = next_after(alloc, older, setting.name)?;
    let made = tonight_of(rt, alloc, setting, papers, older.entries.as_slice(), input)?;
    let laid = laid_out(alloc, made)?;
    let name = folder.as_slice();
    let entry = entry_of_night(alloc, setting, name, papers, &laid, input, again)?;
    let track = copy_text(alloc, laid.track.as_slice())?;
    let tables = tables_of(
        alloc,
        track,
        entry.delivered.as_slice(),
        older.chain.addresses.as_slice(),
        laid.left.as_slice(),
    )?;
    Ok(Draft {
        number,
        folder,
        laid,
        entry,
        tables: Items::from_vec(tables),
    })
}

/// Sees to it that all nights continue with a draft.
fn check_draft(
    alloc: Global,
    setting: &Setting<'_>,
    older: Older<'_>,
    folder: &[u8],
    entry: NightEntry,
) -> Result<Chain, Failure>
    ensures sound { IfOk result (night.IsSoundAfter setting.now older.entry folder.now entry) }
    ensures before { IfErr result IsBefore }
{
    let Older {
        order,
        entries,
        bad,
        chain,
    } = older;
    let mark = mark_of(alloc, setting, folder, chain.before.as_slice())?;
    check_sound(
        alloc,
        order.as_slice(),
        &mark,
        entries,
        entry,
        bad.as_slice(),
        setting.limit,
    )?;
    Ok(chain)
}

/// The files of a draft that is sound, after `chain`.
fn made_by(
    alloc: Global,
    setting: &Setting<'_>,
    chain: &Chain,
    papers: &HubPapers,
    number: u32,
    laid: Laid,
    side: Side,
) -> Result<Made, Failure>
    ensures made { IfOk result (night.IsMadeBy setting.now chain.now papers.now number laid side) }
    ensures before { IfErr result IsBefore }
{
    let Side {
        folder,
        tables,
        came,
        lines,
        status,
    } = side;
    let heading = heading_of(setting, number, chain, status);
    let total = copy_text(alloc, laid.total.as_slice())?;
    let tables = tables.into_vec();
    let files = all_files(alloc, &heading, papers, laid, tables, came)?;
    Ok(Made {
        night: KeptNight {
            name: folder,
            files: Items::from_vec(files),
        },
        number,
        lines,
        total,
        status,
    })
}

/// Makes the night of `setting` after the older ones, by the files of the hub and those of the day, if all nights with it continue. The
/// lines `changes` say which guides have changed.
pub fn made_of<R: Threads + Wait + Clock + Sync>(
    rt: &R,
    alloc: Global,
    setting: &Setting<'_>,
    older: Older<'_>,
    papers: &HubPapers,
    day: Day,
    changes: &[u8],
) -> Result<Made, Failure>
    requires sharing { CanShare setting.now.sharing }
    ensures made { IfOk result (night.IsMadeOf setting.now older.entry papers.now day changes.now) }
    ensures before { IfErr result IsBefore }
{
    let draft = draft_of(
        rt,
        alloc,
        setting,
        &older,
        papers,
        day.input.as_slice(),
        day.again.as_slice(),
    )?;
    let Draft {
        number,
        folder,
        laid,
        entry,
        tables,
    } = draft;
    let chain = check_draft(alloc, setting, older, folder.as_slice(), entry)?;
    let side = side_of(
        alloc,
        folder,
        tables,
        laid.status,
        day,
        changes,
        setting.program,
    )?;
    made_by(alloc, setting, &chain, papers, number, laid, side)
}
