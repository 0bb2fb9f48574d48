ghost use Rattle.std.specs.Prelude.{IfOk};
ghost use Rattle.hub_folder.specs.Failure.{IsBefore};

use hub_folder::{Failure, path_in};
use hub_kinds::{NoMemory, Text, copy_text};
use hub_tonight::Stopped;
use night_record::RecordFault;
use night_shelf::NightFile;
use std::alloc::Global;

/// The path of a guide of the hub.
fn guide_path(
    alloc: Global,
    hub: &str,
    guides: &[NightFile],
    place: usize,
) -> Result<Text, NoMemory> {
    let folder = path_in(alloc, hub.as_bytes(), b"guides")?;
    match guides.get(place) {
        Some(guide) => path_in(alloc, folder.as_slice(), guide.name.as_slice()),
        None => Ok(folder),
    }
}

/// The failure of a night that isn't made.
pub(crate) fn failure_of(
    alloc: Global,
    hub: &str,
    guides: &[NightFile],
    stopped: Stopped,
) -> Result<Failure, NoMemory>
    ensures { IfOk result IsBefore }
{
    match stopped {
        Stopped::Guide(place, _) => Ok(Failure::Refused(guide_path(alloc, hub, guides, place)?)),
        Stopped::SetupFile(_) => Ok(Failure::Refused(path_in(
            alloc,
            hub.as_bytes(),
            b"setup.toml",
        )?)),
        Stopped::FirstCounters(_) => Ok(Failure::Refused(path_in(
            alloc,
            hub.as_bytes(),
            b"counters.toml",
        )?)),
        Stopped::Setup(_) => Ok(Failure::Setup(copy_text(alloc, hub.as_bytes())?)),
        Stopped::InputTooLong => Ok(Failure::InputTooLong),
        Stopped::Thread => Ok(Failure::Thread),
        Stopped::Memory => Ok(Failure::Memory),
    }
}

pub(crate) fn of_record(fault: RecordFault) -> Failure
    ensures { IsBefore result }
{
    match fault {
        RecordFault::Memory => Failure::Memory,
        _ => Failure::Record,
    }
}
