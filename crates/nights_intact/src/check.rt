ghost use Rattle.std.specs.Prelude.{◌≡◌, IfErr, IfOk, List, OnOk, false};
ghost use Rattle.system_io.specs.Outbox.{path_in};
ghost use Rattle.night_folder.specs.Marks.{IsAbsent};
ghost use Rattle.night_marks.specs.declared.mark.NightMark.{NightMark};
ghost use Rattle.nights_intact.specs.Intact as intact;

use crate::fault::IntactFault;
use hub_kinds::{Items, NoMemory, Text, copy_text};
use night_folder::{PaperAt, first_line, read_paper};
use night_marks::{NightMark, in_order};
use record_review::review_records;
use std::alloc::Global;
use std::rt::Files;
use std::str;
use system_io::{Presence, look_at};

/// The path of `name` in `folder`.
fn path_in(alloc: Global, folder: &[u8], name: &[u8]) -> Result<Text, NoMemory>
    ensures { IfOk result (λ path. path ≡ path_in folder.now name.now) }
{
    let mut path = Vec::from_slice(alloc, folder)?;
    path.extend_from_slice(b"/")?;
    path.extend_from_slice(name)?;
    Ok(Items::from_vec(path))
}

/// Whether a night called `name` is among `marks`.
fn has_night(name: &[u8], marks: &[NightMark]) -> bool
    ensures { result ≡ intact.has_night name.now marks.now }
{
    marks.iter().any(|mark| mark.name.as_slice() == name)
}

/// Whether something may be at `path`.
fn is_there<R: Files>(rt: &R, path: &[u8]) -> bool
    ensures { result ≡ false → IsAbsent path.now }
{
    match str::from_utf8(path) {
        Err(_) => true,
        Ok(text) => match look_at(rt, text).presence() {
            Presence::Nothing(_) => false,
            Presence::Something | Presence::Unknown(_) => true,
        },
    }
}

/// Reads the file of `hub` that names its last night, which may be absent: a file that is there and can't be read is a fault.
fn last_file<R: Files + AllocGlobal>(rt: &R, hub: &[u8]) -> Result<PaperAt, IntactFault>
    ensures at { IfOk result (intact.IsLastFile hub.now) }
    ensures read { IfOk result intact.IsReadOrAbsent }
    ensures fault { (marks : List NightMark) → IfErr result (intact.IsFaultOf hub.now marks) }
{
    let file = read_paper(rt, hub, b"last")?;
    if file.bytes().is_none() && is_there(rt, file.path()) {
        return Err(IntactFault::Unread(copy_text(rt.alloc(), file.path())?));
    }
    Ok(file)
}

/// The path of the night `name` of `hub`.
fn night_path(alloc: Global, hub: &[u8], name: &[u8]) -> Result<Text, NoMemory>
    ensures { IfOk result (λ path. path ≡ path_in (intact.nights_in hub.now) name.now) }
{
    let nights = path_in(alloc, hub, b"nights")?;
    path_in(alloc, nights.as_slice(), name)
}

/// Sees to it that the night which `file` of `hub` names, if it was read, is among `marks`.
fn check_named(
    alloc: Global,
    hub: &[u8],
    marks: &[NightMark],
    file: &PaperAt,
) -> Result<(), IntactFault>
    requires at { intact.IsLastFile hub.now file.now }
    requires read { intact.IsReadOrAbsent file.now }
    ensures there { OnOk result (intact.IsNamedThere marks.now file.now) }
    ensures fault { IfErr result (intact.IsFaultOf hub.now marks.now) }
{
    match file.bytes() {
        None => Ok(()),
        Some(bytes) => {
            let name = first_line(bytes);
            if has_night(name, marks) {
                Ok(())
            } else {
                Err(IntactFault::Gone(night_path(alloc, hub, name)?))
            }
        }
    }
}

/// Sees to it that the night that was the last of `hub` is among `marks`.
fn check_last<R: Files + AllocGlobal>(
    rt: &R,
    hub: &[u8],
    marks: &[NightMark],
) -> Result<(), IntactFault>
    ensures there { OnOk result (intact.IsLastThere hub.now marks.now) }
    ensures fault { IfErr result (intact.IsFaultOf hub.now marks.now) }
{
    match last_file(rt, hub) {
        Ok(file) => check_named(rt.alloc(), hub, marks, &file),
        Err(fault) => Err(fault),
    }
}

/// Sees to it that the records of the nights `marks` of `hub` go on.
fn check_records<R: Files + AllocGlobal + Clone + Drop>(
    rt: &R,
    hub: &[u8],
    marks: &[NightMark],
) -> Result<(), IntactFault>
    ensures sound { OnOk result (intact.AreRecordsSound hub.now marks.now) }
    ensures fault { IfErr result (intact.IsRecordsFault hub.now marks.now) }
{
    let nights = path_in(rt.alloc(), hub, b"nights")?;
    let order = in_order(rt.alloc(), marks)?;
    let report = review_records(rt, nights.as_slice(), order.as_slice())?;
    if report.status == 0 {
        Ok(())
    } else {
        Err(IntactFault::Records(Items::from_vec(report.text)))
    }
}

/// Sees to it that the nights `marks` of the hub at the path `hub` are all there, and are what their records say. Errors: the last night
/// is gone, or the file that names it can't be read; the records don't go on; or out of memory.
pub fn check_intact<R: Files + AllocGlobal + Clone + Drop>(
    rt: &R,
    hub: &[u8],
    marks: &[NightMark],
) -> Result<(), IntactFault>
    ensures intact { OnOk result (intact.AreIntact hub.now marks.now) }
    ensures fault { IfErr result (intact.IsFaultOf hub.now marks.now) }
{
    check_last(rt, hub, marks)?;
    check_records(rt, hub, marks)
}
