//! Guides that have changed since the last night.
ghost use Rattle.std.specs.Prelude.{◌≡◌, IfErr, IfOk};
ghost use Rattle.hub_command.specs.Changed as changed;
ghost use Rattle.hub_folder.specs.Failure.{IsBefore};

use guide_changes::guide_changes;
use hub_folder::{Failure, path_in};
use hub_kinds::{NoMemory, Text};
use night_shelf::NightFile;
use std::alloc::Global;
use std::rt::Files;
use std::str;

/// The path of the folder of guides of the night in the folder `night` of the hub in the folder `hub`.
fn guides_of_night(alloc: Global, hub: &[u8], night: &[u8]) -> Result<Text, NoMemory>
    ensures { IfOk result (λ path. path ≡ changed.guides_of_night hub.now night.now) }
{
    let nights = path_in(alloc, hub, b"nights")?;
    let folder = path_in(alloc, nights.as_slice(), night)?;
    path_in(alloc, folder.as_slice(), b"from/guides")
}

/// What is said of `guides`, the guides of the hub in the folder `hub`, against those of its night in the folder `night`.
fn changes_since<R: Files + AllocGlobal + Clone + Drop>(
    rt: &R,
    hub: &[u8],
    night: &[u8],
    guides: &[NightFile],
) -> Result<Vec<u8>, Failure>
    ensures changes { IfOk result (λ text. changed.AreChangesSince hub.now night.now guides.now text.items) }
    ensures before { IfErr result IsBefore }
{
    let before = guides_of_night(rt.alloc(), hub, night)?;
    let Ok(path) = str::from_utf8(before.as_slice()) else {
        return Err(Failure::Unread(before));
    };
    let now = path_in(rt.alloc(), hub, b"guides")?;
    Ok(guide_changes(rt, path, now.as_slice(), guides)?)
}

/// What is said of `guides`, the guides of the hub in the folder `hub`, against those of its last night, which is in the folder `last`;
/// nothing if `last` is empty, before the first night.
pub(crate) fn changes_at<R: Files + AllocGlobal + Clone + Drop>(
    rt: &R,
    hub: &[u8],
    last: &[u8],
    guides: &[NightFile],
) -> Result<Vec<u8>, Failure>
    ensures changes { IfOk result (λ text. changed.AreChangesAt hub.now last.now guides.now text.items) }
    ensures before { IfErr result IsBefore }
{
    match last {
        [] => Ok(Vec::new(rt.alloc())),
        [..] => changes_since(rt, hub, last, guides),
    }
}
