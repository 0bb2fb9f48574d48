ghost use Rattle.std.specs.Prelude.{◌≡◌, IfErr, IfOk, IsErrOf, IsOk, Ok, false, string_bytes, true};
ghost use Rattle.track_command.specs.Failure.{IsOfPlace};
ghost use Rattle.track_command.specs.Places.{part_of};

use crate::failure::TrackFailure;
use hub_kinds::{Text, copy_text};
use night_command::Failure;
use std::alloc::{AllocError, Global};
use std::marker::Model;
use std::rt::Files;
use system_io::{Absent, Looked, Presence, look_at};

/// That a file can go to a path: nothing is there, nor beside it, where it is written first. Only `free_by` makes one.
#[derive(Drop)]
pub struct Free<'p> {
    path: &'p str,
}

impl<'p> Model for Free<'p> {
    ghost use Rattle.std.specs.Prelude.{ℕ, List};

    ghost Value = { List ℕ };

    ghost view = { λ f. f.path.now };
}

/// Sees that a file can go to a path: nothing is there, nor beside it.
pub fn is_free<'p, R: Files + AllocGlobal>(
    rt: &R,
    path: &'p str,
) -> Result<Free<'p>, TrackFailure<'static>>
    ensures free { IfOk result (λ free. free ≡ path.now) }
    ensures err { IfErr result IsOfPlace }
{
    let beside = part_path(rt.alloc(), path)?;
    let at = absent(rt, path)?;
    let next = absent(rt, beside.as_str())?;
    Ok(free_by(at, next))
}

fn free_by<'p>(at: Absent<'p>, _beside: Absent<'_>) -> Free<'p>
    requires { _beside ≡ part_of at }
    ensures { result ≡ at.entry }
{
    Free { path: at.path() }
}

/// The path at which a file is written before it goes to `path`.
pub(crate) fn part_path(alloc: Global, path: &str) -> Result<String, AllocError>
    ensures { IfOk result (λ part. string_bytes part ≡ part_of path.now) }
{
    format!(in alloc; "{path}.part")
}

/// That nothing is at a path.
fn absent<'p, R: Files + AllocGlobal>(
    rt: &R,
    path: &'p str,
) -> Result<Absent<'p>, TrackFailure<'static>>
    ensures absent { IfOk result (λ absent. absent ≡ path.now) }
    ensures err { IfErr result IsOfPlace }
{
    let named = copy_text(rt.alloc(), path.as_bytes())?;
    absent_by(look_at(rt, path), named)
}

/// Nothing is at a place of this name if the system says so.
fn absent_by<'p>(looked: Looked<'p>, named: Text) -> Result<Absent<'p>, TrackFailure<'static>>
    ensures place { IfOk result (λ absent. absent ≡ looked.entry.path) }
    ensures free { IfOk result (λ _. looked.entry.answer ≡ Ok false) }
    ensures absent { looked.entry.answer ≡ Ok false → IsOk result }
    ensures there { looked.entry.answer ≡ Ok true → IsErrOf result (TrackFailure.There named) }
    ensures err { IfErr result IsOfPlace }
{
    match looked.presence() {
        Presence::Nothing(absent) => Ok(absent),
        Presence::Something => Err(TrackFailure::There(named)),
        Presence::Unknown(error) => {
            Err(TrackFailure::Night(Failure::of_fault(error, Failure::Output(named))))
        }
    }
}
