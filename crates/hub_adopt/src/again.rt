ghost use Rattle.std.specs.Prelude.{◌≡◌, [], None, IfOk, IfSome, OnOk, length};
ghost use Rattle.night_command.specs.CommandLine.{CanShare};
ghost use Rattle.night_review.specs.Nights.{AreNights};
ghost use Rattle.hub_folder.specs.Older.{IsOlder};
ghost use Rattle.hub_adopt.specs.Again as again;
ghost use Rattle.hub_adopt.specs.Given.{given_in};

use crate::adoption::Adoption;
use crate::given::{first_other, given_at, given_in};
use crate::refusal::{Cause, Refusal};
use day_files::{Content, DayFile, listing_of};
use hub_folder::{Failure, Older, is_night_name, older_of, papers_at, path_in};
use hub_kinds::{Items, NoMemory, Text, copy_text};
use hub_night::{Day, Made, Setting, made_of};
use moment::At;
use night_folder::read_paper;
use night_marks::NightMark;
use night_shelf::NightFile;
use std::alloc::Global;
use std::rt::Files;
use std::str;
use std::sync::Wait;
use std::thread::Threads;
use std::time::Clock;

/// The folder of the old night `mark`.
pub(crate) fn old_folder(
    alloc: Global,
    adoption: &Adoption<'_>,
    mark: &NightMark,
) -> Result<Text, NoMemory>
    ensures { IfOk result (λ path. path ≡ again.old_folder adoption.now mark.now) }
{
    path_in(alloc, adoption.nights.as_bytes(), mark.name.as_slice())
}

fn no_text(alloc: Global) -> Text
    ensures { result ≡ [] }
{
    Items::from_vec(Vec::new(alloc))
}

/// The day of which all of `input` goes in, which was read at `path`.
fn day_of(alloc: Global, path: &[u8], input: &[u8]) -> Result<Day, NoMemory>
    ensures { IfOk result (λ day. day ≡ again.day_of path.now input.now) }
{
    let mut files = Vec::new(alloc);
    files.push(DayFile {
        path: copy_text(alloc, path)?,
        content: Content::Read(copy_text(alloc, input)?),
        is_again: false,
    })?;
    Ok(Day {
        listing: Items::from_vec(listing_of(alloc, files.as_slice())?),
        again: no_text(alloc),
        input: copy_text(alloc, input)?,
        lines: no_text(alloc),
        is_whole: true,
    })
}

/// The day of the input in the folder at the path `from`.
fn day_at<R: Files + AllocGlobal>(rt: &R, from: &[u8]) -> Result<Day, Refusal>
    ensures { IfOk result (again.IsDayAgain from.now) }
{
    let file = read_paper(rt, from, b"in.x12")?;
    let Some(input) = file.bytes() else {
        return Err(Refusal::Hub(Failure::Unread(copy_text(rt.alloc(), file.path())?)));
    };
    Ok(day_of(rt.alloc(), file.path(), input)?)
}

/// The night that is to be made again, which has the name and the moment of `mark`. Its own files are in the folder at the path `from`.
fn setting_of<'a>(
    adoption: &'a Adoption<'a>,
    from: &'a str,
    mark: &'a NightMark,
) -> Option<Setting<'a>>
    ensures { IfSome result (λ setting. again.IsSettingAgain adoption.entry.now from.entry.now mark.entry.now setting) }
{
    let at = At::read(mark.moment.as_slice())?;
    if !is_night_name(mark.name.as_slice()) {
        return None;
    }
    Some(Setting {
        hub: from,
        files: &[],
        again: &[],
        at,
        name: mark.name.as_slice(),
        sharing: adoption.sharing,
        limit: adoption.limit,
        clock: adoption.clock,
        program: adoption.program,
    })
}

/// The night that is made after `older`, of the files in the folder at the path `from`.
fn made_from<R>(
    rt: &R,
    adoption: &Adoption<'_>,
    from: &str,
    mark: &NightMark,
    older: Older<'_>,
) -> Result<Made, Refusal>
where
    R: Files + AllocGlobal + Threads + Wait + Clock + Sync + Clone + Drop,
    requires sharing { CanShare adoption.now.sharing }
    ensures { IfOk result (again.IsMadeFrom adoption.now from.now mark.now older.entry) }
{
    let Some(setting) = setting_of(adoption, from, mark) else {
        return Err(Refusal::Hub(Failure::Chain(old_folder(rt.alloc(), adoption, mark)?)));
    };
    let papers = papers_at(rt, from.as_bytes())?;
    let day = day_at(rt, from.as_bytes())?;
    Ok(made_of(rt, rt.alloc(), &setting, older, &papers, day, b"")?)
}

/// The night of `mark` that is made again after `older`, by the files in its folder.
fn made_after<R>(
    rt: &R,
    adoption: &Adoption<'_>,
    mark: &NightMark,
    older: Older<'_>,
) -> Result<Made, Refusal>
where
    R: Files + AllocGlobal + Threads + Wait + Clock + Sync + Clone + Drop,
    requires sharing { CanShare adoption.now.sharing }
    ensures { IfOk result (again.IsMadeFrom adoption.now (again.from_folder adoption.now mark.now) mark.now older.entry) }
{
    let folder = old_folder(rt.alloc(), adoption, mark)?;
    let from = path_in(rt.alloc(), folder.as_slice(), b"from")?;
    let Ok(path) = str::from_utf8(from.as_slice()) else {
        return Err(Refusal::Hub(Failure::Chain(folder)));
    };
    made_from(rt, adoption, path, mark, older)
}

/// The path of the first file in which the old night `mark` and the files that a night gave, in the order of their names, differ; none if
/// they are the same.
pub(crate) fn other_file<R: Files + AllocGlobal + Clone + Drop>(
    rt: &R,
    adoption: &Adoption<'_>,
    mark: &NightMark,
    given: &[NightFile],
) -> Result<Option<Text>, Refusal>
    ensures { IfOk result (λ other. other ≡ None → again.GivesTheSame adoption.now mark.now given.now) }
{
    let folder = old_folder(rt.alloc(), adoption, mark)?;
    let old = given_at(rt, folder.as_slice())?;
    match first_other(given, old.as_slice()) {
        None => Ok(None),
        Some(name) => Ok(Some(path_in(rt.alloc(), folder.as_slice(), name)?)),
    }
}

/// Sees to it that the night that was made again gives what the old night `mark` gave.
fn check_made<R: Files + AllocGlobal + Clone + Drop>(
    rt: &R,
    adoption: &Adoption<'_>,
    mark: &NightMark,
    made: &Made,
) -> Result<(), Refusal>
    ensures { OnOk result (again.GivesTheSame adoption.now mark.now (given_in made.now.night.files)) }
{
    let given = given_in(rt.alloc(), made.night.files.as_slice())?;
    match other_file(rt, adoption, mark, given.as_slice())? {
        None => Ok(()),
        Some(path) => Err(Refusal::Named(Cause::Differs, path)),
    }
}

/// What was read of the nights `marks` of the hub, which are `count`.
fn older_at<'a, R: Files + AllocGlobal + Clone + Drop>(
    rt: &R,
    adoption: &Adoption<'_>,
    count: usize,
    marks: &'a [NightMark],
) -> Result<Older<'a>, Refusal>
    ensures older { IfOk result (IsOlder (again.hub_nights adoption.now) marks.entry.now) }
    ensures count { IfOk result (λ older. length older.order ≡ count) }
{
    let nights = path_in(rt.alloc(), adoption.hub.as_bytes(), b"nights")?;
    let older = older_of(rt, nights.as_slice(), marks)?;
    if older.order.as_slice().len() == count {
        Ok(older)
    } else {
        Err(Refusal::Named(Cause::Other, nights))
    }
}

/// The old night `mark`, made again after the nights `marks` of the hub, which are `count`.
pub(crate) fn made_again<R>(
    rt: &R,
    adoption: &Adoption<'_>,
    count: usize,
    mark: &NightMark,
    marks: &[NightMark],
) -> Result<Made, Refusal>
where
    R: Files + AllocGlobal + Threads + Wait + Clock + Sync + Clone + Drop,
    requires sharing { CanShare adoption.now.sharing }
    requires nights { AreNights (again.hub_nights adoption.now) marks.now }
    ensures { IfOk result (again.IsMadeAgain adoption.now count mark.now) }
{
    let older = older_at(rt, adoption, count, marks)?;
    let made = made_after(rt, adoption, mark, older)?;
    check_made(rt, adoption, mark, &made)?;
    Ok(made)
}
