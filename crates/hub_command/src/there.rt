ghost use Rattle.std.specs.Prelude.{◌≡◌, ◌≤◌, IfErr, IfOk, IfSome, List, OnOk, true};
ghost use Rattle.night_review.specs.GoingOn.{GoOn};
ghost use Rattle.day_files.specs.Listing.{listing_of};
ghost use Rattle.day_files.specs.declared.file.DayFile.{DayFile};
ghost use Rattle.hub_folder.specs.Failure.{IsBefore};
ghost use Rattle.hub_folder.specs.Older.{map_now};
ghost use Rattle.hub_command.specs.There as there;

use hub_folder::{Chain, Failure, Older, folder_name, path_in};
use hub_kinds::{Items, NoMemory, Text, copy_text};
use hub_night::{Setting, joined};
use night_folder::{PaperAt, read_paper};
use night_marks::{NightMark, night_count};
use night_review::judged;
use std::alloc::Global;
use std::rt::Files;

/// The last night of a hub, which is the one that is asked for.
#[derive(Drop)]
pub(crate) struct There {
    pub(crate) number: u32,
    pub(crate) folder: Text,
    /// The lines on guides that had changed, and a line for each file of the day.
    pub(crate) lines: Text,
    /// The last line of its report.
    pub(crate) total: Text,
    pub(crate) status: u8,
    /// The SHA-256 of its record.
    pub(crate) record_sum: Text,
}

/// Whether a night is the one of this number that `setting` names.
fn is_named(
    alloc: Global,
    setting: &Setting<'_>,
    number: u32,
    mark: &NightMark,
) -> Result<bool, NoMemory>
    requires { number ≤ 999999 }
    ensures { IfOk result (λ named. named ≡ true → there.IsNamed setting.now number mark.now) }
{
    let folder = folder_name(alloc, number, setting.name)?;
    let is_night = mark.name.as_slice() == folder.as_slice() && !mark.is_archived;
    Ok(is_night && mark.moment.as_slice() == setting.at.digits())
}

/// The status that a file `done` says.
fn status_in(done: &PaperAt) -> Option<u8>
    ensures { IfSome result (there.IsStatusIn done.now.bytes) }
{
    match done.bytes() {
        Some(b"0\n") => Some(0),
        Some(b"1\n") => Some(1),
        _ => None,
    }
}

/// Sees to it that the nights which were read continue.
fn check_all(
    alloc: Global,
    older: &Older<'_>,
    last: &NightMark,
    limit: &[u8],
) -> Result<(), Failure>
    ensures sound { OnOk result (GoOn limit.now last.now.name (map_now older.now.order) older.now.entries older.now.bad) }
    ensures before { IfErr result IsBefore }
{
    let report = judged(
        alloc,
        older.order.as_slice(),
        older.entries.as_slice(),
        older.bad.as_slice(),
        limit,
        last.name.as_slice(),
    )?;
    if report.status == 0 {
        Ok(())
    } else {
        Err(Failure::NotSound(Items::from_vec(report.text)))
    }
}

/// The lines that were kept of the night in the folder at the path `folder`.
fn lines_at<R: Files + AllocGlobal>(rt: &R, folder: &[u8]) -> Result<Text, Failure>
    ensures lines { IfOk result (there.AreLinesAt folder.now) }
    ensures before { IfErr result IsBefore }
{
    let guides = read_paper(rt, folder, b"guides.txt")?;
    let said = read_paper(rt, folder, b"files.txt")?;
    let Some(files) = said.bytes() else {
        return Err(Failure::Chain(copy_text(rt.alloc(), folder)?));
    };
    Ok(joined(rt.alloc(), guides.bytes_or_none(), files)?)
}

/// What the night `number` gave, in the folder `name` of the folder at the path `nights`.
fn given_at<R: Files + AllocGlobal>(
    rt: &R,
    nights: &[u8],
    name: &[u8],
    number: u32,
    chain: &Chain,
) -> Result<There, Failure>
    ensures given { IfOk result (there.IsGivenAt nights.now name.now number chain.now) }
    ensures before { IfErr result IsBefore }
{
    let folder = path_in(rt.alloc(), nights, name)?;
    let total = read_paper(rt, folder.as_slice(), b"total")?;
    let done = read_paper(rt, folder.as_slice(), b"done")?;
    let lines = lines_at(rt, folder.as_slice())?;
    let Some(text) = total.bytes() else {
        return Err(Failure::Chain(folder));
    };
    let Some(status) = status_in(&done) else {
        return Err(Failure::Chain(folder));
    };
    let Some(sum) = &chain.before_sum else {
        return Err(Failure::Chain(folder));
    };
    Ok(There {
        number,
        folder: copy_text(rt.alloc(), name)?,
        lines,
        total: copy_text(rt.alloc(), text)?,
        status,
        record_sum: copy_text(rt.alloc(), sum.as_slice())?,
    })
}

fn are_same(bytes: &[u8], listing: &[u8]) -> bool
    ensures { result ≡ true → bytes.now ≡ listing.now }
{
    bytes == listing
}

/// Whether the night of the folder at the path `folder` was made of the files of `listing`.
fn is_of<R: Files + AllocGlobal>(rt: &R, folder: &[u8], listing: &[u8]) -> Result<bool, NoMemory>
    ensures { IfOk result (λ same. same ≡ true → there.IsOf folder.now listing.now) }
{
    let written = read_paper(rt, folder, b"from/files.sum")?;
    match written.bytes() {
        None => Ok(false),
        Some(bytes) => Ok(are_same(bytes, listing)),
    }
}

/// The night that `setting` names of the files of `listing`, if it is the last of the folder at the path `nights`, and these continue.
pub(crate) fn there_at<R: Files + AllocGlobal>(
    rt: &R,
    nights: &[u8],
    older: &Older<'_>,
    setting: &Setting<'_>,
    listing: &[u8],
) -> Result<Option<There>, Failure>
    ensures there { IfOk result (λ found. (files : List DayFile) → listing.now ≡ listing_of files
        → IfSome found (there.IsThereAt nights.now older.now setting.now files)) }
    ensures before { IfErr result IsBefore }
{
    let order = older.order.as_slice();
    let Some(last) = order.last() else {
        return Ok(None);
    };
    let count = night_count(rt.alloc(), order)?;
    if 999_999 < count || !is_named(rt.alloc(), setting, count as u32, last)? {
        return Ok(None);
    }
    let folder = path_in(rt.alloc(), nights, last.name.as_slice())?;
    if !is_of(rt, folder.as_slice(), listing)? {
        return Ok(None);
    }
    check_all(rt.alloc(), older, last, setting.limit)?;
    let there = given_at(rt, nights, last.name.as_slice(), count as u32, &older.chain)?;
    Ok(Some(there))
}
