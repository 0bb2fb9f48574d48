ghost use Rattle.std.specs.Prelude.{IfErr, IfOk};
ghost use Rattle.night_review.specs.Nights.{AreNights};
ghost use Rattle.hub_folder.specs.Failure.{IsBefore};

use crate::failure::Failure;
use crate::papers::path_in;
use hub_kinds::{Text, copy_text};
use night_marks::{NightMark, in_order};
use night_review::{ReviewFault, nights_at};
use std::rt::Files;
use std::str;

fn of_day(fault: ReviewFault, hub: Text) -> Failure
    ensures { IsBefore result }
{
    match fault {
        ReviewFault::Clock => Failure::Clock,
        ReviewFault::Memory => Failure::Memory,
        _ => Failure::Nights(hub),
    }
}

/// The nights in the folder at the path `nights` of the hub `hub`.
pub fn marks_at<R: Files + AllocGlobal + Clone + Drop>(
    rt: &R,
    hub: &str,
    nights: &[u8],
) -> Result<Vec<NightMark>, Failure>
    ensures nights { IfOk result (λ marks. AreNights nights.now marks.items) }
    ensures before { IfErr result IsBefore }
{
    let hub = copy_text(rt.alloc(), hub.as_bytes())?;
    let Ok(path) = str::from_utf8(nights) else {
        return Err(Failure::Nights(hub));
    };
    match nights_at(rt, path) {
        Ok(marks) => Ok(marks),
        Err(fault) => Err(of_day(fault, hub)),
    }
}

/// The names of the last night of the hub `hub`, which isn't archived, and of the one before it, if there is one.
pub fn last_names<R: Files + AllocGlobal + Clone + Drop>(
    rt: &R,
    hub: &str,
) -> Result<(Text, Option<Text>), Failure>
    ensures before { IfErr result IsBefore }
{
    let nights = path_in(rt.alloc(), hub.as_bytes(), b"nights")?;
    let marks = marks_at(rt, hub, nights.as_slice())?;
    let order = in_order(rt.alloc(), marks.as_slice())?;
    match order.as_slice() {
        [] => Err(Failure::NoNight),
        [.., last] if last.is_archived => Err(Failure::NoNight),
        [one] => Ok((copy_text(rt.alloc(), one.name.as_slice())?, None)),
        [.., before, last] => Ok((
            copy_text(rt.alloc(), last.name.as_slice())?,
            Some(copy_text(rt.alloc(), before.name.as_slice())?),
        )),
    }
}

/// The name of the last night of the hub `hub`.
pub(crate) fn last_name<R: Files + AllocGlobal + Clone + Drop>(
    rt: &R,
    hub: &str,
) -> Result<Text, Failure>
    ensures before { IfErr result IsBefore }
{
    let (last, _) = last_names(rt, hub)?;
    Ok(last)
}
