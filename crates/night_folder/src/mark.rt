ghost use Rattle.std.specs.Prelude.{◌≡◌, ◌⊎◌, false, true, IfOk, OnOk, codes};
ghost use Rattle.std.specs.List.{AllZip, filter_map};
ghost use Rattle.night_folder.specs.Files.{first_line, bytes_or_none, in_night};
ghost use Rattle.night_folder.specs.Marks as marks;

use crate::paper::{first_line, path_in, read_paper};
use hub_kinds::{NoMemory, Text, copy_text};
use night_marks::NightMark;
use std::alloc::Global;
use std::rt::Files;
use std::str;
use system_io::{Presence, look_at};

fn is_hidden(name: &[u8]) -> bool
    ensures { result ≡ marks.is_hidden name.now }
{
    match name {
        [] => false,
        [first, ..] => *first == b'.',
    }
}

/// Whether something may be at `path`.
pub fn is_there<R: Files>(rt: &R, path: &[u8]) -> bool
    ensures { result ≡ false → marks.IsAbsent path.now }
{
    match str::from_utf8(path) {
        Err(_) => true,
        Ok(text) => match look_at(rt, text).presence() {
            Presence::Nothing(_) => false,
            Presence::Something | Presence::Unknown(_) => true,
        },
    }
}

/// Reads the moment of the night `name`, and the name of the night before it.
fn mark_at<R: Files + AllocGlobal>(
    rt: &R,
    nights: &[u8],
    name: &[u8],
) -> Result<NightMark, NoMemory>
    ensures { IfOk result (marks.IsMark nights.now name.now) }
{
    let folder = path_in(rt.alloc(), nights, name)?;
    let at = read_paper(rt, folder.as_slice(), b"from/at")?;
    let before = read_paper(rt, folder.as_slice(), b"from/before")?;
    Ok(NightMark {
        name: copy_text(rt.alloc(), name)?,
        moment: copy_text(rt.alloc(), at.bytes_or_none())?,
        before: copy_text(rt.alloc(), first_line(before.bytes_or_none()))?,
        is_archived: false,
    })
}

/// The night `name`; none if the name is hidden, or nothing is at its file `done`.
fn found_at<R: Files + AllocGlobal>(
    rt: &R,
    nights: &[u8],
    name: &[u8],
) -> Result<Option<NightMark>, NoMemory>
    ensures { IfOk result (marks.IsFound nights.now name.now) }
{
    if is_hidden(name) {
        return Ok(None);
    }
    let folder = path_in(rt.alloc(), nights, name)?;
    let done = path_in(rt.alloc(), folder.as_slice(), b"done")?;
    if is_there(rt, done.as_slice()) {
        Ok(Some(mark_at(rt, nights, name)?))
    } else {
        Ok(None)
    }
}

/// The nights of the folder at the path `nights`, by the `names` in it: of each name its night, or none if it isn't one. The only error is
/// out of memory.
pub fn marks_at<R: Files + AllocGlobal>(
    rt: &R,
    nights: &[u8],
    names: &[Text],
) -> Result<Vec<Option<NightMark>>, NoMemory>
    ensures { IfOk result (λ found. AllZip (marks.IsFound nights.now) names.now found.items) }
{
    let mut found = Vec::new(rt.alloc());
    for i in 0..names.len() {
        found.push(found_at(rt, nights, names[i].as_slice())?)?;
    }
    Ok(found)
}

/// The nights that were found. The only error is out of memory.
pub fn marks_in(alloc: Global, found: Vec<Option<NightMark>>) -> Result<Vec<NightMark>, NoMemory>
    ensures { IfOk result (λ nights. nights.items ≡ filter_map (λ mark. mark) found.items) }
{
    let mut nights = Vec::new(alloc);
    for mark in found {
        if let Some(mark) = mark {
            nights.push(mark)?;
        }
    }
    Ok(nights)
}
