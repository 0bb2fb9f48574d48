ghost use Rattle.std.specs.Prelude.{◌<◌, ◌≤◌, ◌↔◌, IfErr, IfOk, IsErrOf, length, reverse};
ghost use Rattle.hub_kinds.specs.declared.limits.TheConstants.{LONGEST_TEXT};
ghost use Rattle.hub_tonight.specs.Made.{IsMade};
ghost use Rattle.hub_tonight.specs.Stopped.{IsStopped};
ghost use Rattle.hub_tonight.specs.Tonight.{IsTonight};
ghost use Rattle.night_command.specs.CommandLine.{CanShare};
ghost use Rattle.night_definition.specs.ReadBack as defined;
ghost use Rattle.night_equal_read.specs.Read.{seen_night};
ghost use Rattle.night_equal_text.specs.LookedUp.{seen_setup};

use crate::call::Call;
use crate::given::{next_rows, night_by, total_of, track_of};
use crate::made::{Made, made_of};
use crate::night::Tonight;
use crate::out_files::out_files;
use crate::stopped::Stopped;
use hub_kinds::{Items, NoMemory, within_limit};
use hub_run::Night;
use night_equal_setup::setup_bytes_are_one;
use std::alloc::Global;
use std::sync::Wait;
use std::thread::Threads;
use std::time::Clock;

/// The night that `night` is by the files of `call`.
fn given(alloc: Global, call: &Call<'_>, made: Made, night: Night) -> Result<Tonight, NoMemory>
    requires few { length call.now.input.now ≤ LONGEST_TEXT }
    requires made { IsMade call.now.files (reverse call.now.nights.now) call.now.first.now made }
    requires night { defined.IsNight call.now.input.now (seen_setup made.setup) call.now.at.now (seen_night night) }
    ensures { IfOk result (IsTonight call.now.files (reverse call.now.nights.now) call.now.first.now call.now.input.now call.now.at.now) }
{
    setup_bytes_are_one();
    let Made { counters, setup } = made;
    let out = out_files(alloc, &setup, &night)?;
    let left = next_rows(alloc, setup.partners(), night.next.as_slice())?;
    let track = track_of(alloc, call.input, &setup)?;
    let total = total_of(alloc, night)?;
    Ok(Tonight {
        counters,
        out: Items::from_vec(out),
        total: total.line,
        track,
        status: total.status,
        left: Items::from_vec(left),
    })
}

/// The night of an input by the files of a hub, whose partners' addresses continue where its older nights left them: what it begins with,
/// what it gives, and what it leaves. It is the night of `nighthub` by these bytes, whatever `call.sharing` is. It waits for its workers.
/// Errors: an input of more than 4,294,967,295 bytes, exactly; the first file that is refused, in the order guides, setup file and first
/// counters, or what they make together; the system refused memory or a thread.
/// X12.5, interchange and interchange acknowledgment; X12.6, functional group and transaction set; 999 guide (005010X231).
pub fn tonight<R>(rt: &R, alloc: Global, call: &Call<'_>) -> Result<Tonight, Stopped>
where
    R: Threads + Wait + Clock + Sync,
    requires sharing { CanShare call.now.sharing }
    ensures night { IfOk result
        (IsTonight call.now.files (reverse call.now.nights.now) call.now.first.now call.now.input.now call.now.at.now) }
    ensures stopped { IfErr result (IsStopped call.now.files (reverse call.now.nights.now) call.now.first.now call.now.input.now) }
    ensures too_long { IsErrOf result Stopped.InputTooLong ↔ (LONGEST_TEXT < length call.now.input.now) }
{
    if !within_limit(call.input.len() as u64) {
        return Err(Stopped::InputTooLong);
    }
    let made = made_of(alloc, call)?;
    let night = night_by(rt, alloc, call, &made.setup)?;
    Ok(given(alloc, call, made, night)?)
}
