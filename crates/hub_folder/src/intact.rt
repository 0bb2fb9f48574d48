ghost use Rattle.std.specs.Prelude.{IfErr, OnOk};
ghost use Rattle.hub_folder.specs.Failure.{IsBefore};
ghost use Rattle.hub_folder.specs.Intact.{AreIntactAt};

use crate::failure::Failure;
use crate::last::{note_last, of_note};
use crate::nights::{last_name, marks_at};
use crate::papers::path_in;
use hub_kinds::copy_text;
use nights_intact::{IntactFault, check_intact};
use std::rt::Files;

/// The failure of a fault of the hub's nights.
fn of_nights(fault: IntactFault) -> Failure
    ensures { IsBefore result }
{
    match fault {
        IntactFault::Unread(path) => Failure::Unread(path),
        IntactFault::Gone(path) => Failure::Gone(path),
        IntactFault::Records(lines) => Failure::Records(lines),
        IntactFault::Memory => Failure::Memory,
    }
}

/// Sees to it that the nights of the hub `hub` are all there, and are what their records say.
pub fn see_intact<R: Files + AllocGlobal + Clone + Drop>(rt: &R, hub: &str) -> Result<(), Failure>
    ensures intact { OnOk result (AreIntactAt hub.now) }
    ensures before { IfErr result IsBefore }
{
    let nights = path_in(rt.alloc(), hub.as_bytes(), b"nights")?;
    let marks = marks_at(rt, hub, nights.as_slice())?;
    match check_intact(rt, hub.as_bytes(), marks.as_slice()) {
        Ok(()) => Ok(()),
        Err(fault) => Err(of_nights(fault)),
    }
}

/// Writes down which night of the hub `hub` is the last.
pub fn note_last_night<R: Files + AllocGlobal + Clone + Drop>(
    rt: &R,
    hub: &str,
) -> Result<(), Failure>
    ensures before { IfErr result IsBefore }
{
    let named = copy_text(rt.alloc(), hub.as_bytes())?;
    let name = last_name(rt, hub)?;
    match note_last(rt, hub, name.as_slice()) {
        Ok(()) => Ok(()),
        Err(error) => Err(of_note(&error, named)),
    }
}
