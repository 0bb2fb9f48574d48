ghost use Rattle.std.specs.Prelude.{◌≡◌, ◌↔◌, ◌<◌, ◌≤◌, length, IfOk, IsErrOf};
ghost use Rattle.moment.specs.Moment.{IsMoment};
ghost use Rattle.night_batches.specs.Night.{IsNight};
ghost use Rattle.night_definition.specs.ReadBack as defined;
ghost use Rattle.night_equal_text.specs.LookedUp.{seen_setup};
ghost use Rattle.night_equal_read.specs.Read.{seen_night};

use crate::plain::are_sound;
use crate::run_fault::RunFault;
use crate::writing::write_found;
use cut_plan::Cuts;
use hub_kinds::{LONGEST_TEXT, within_limit};
use job_pool::ManyThreads;
use moment::At;
use night_batches::Night;
use night_equal_read::whole_nights_are_one;
use partner_setup::Setup;
use set_findings::{FastGuides, FoundText, find_out};
use std::alloc::Global;
use std::sync::Wait;
use std::thread::Threads;
use std::time::Clock;
use worker_pool::Gate;

/// The night of a text that is cut into pieces, anywhere, and shared among 1 to 64 workers, after a gate: for every number of workers
/// and every way of cutting, what the definitions give for the text read front to back, byte for byte. Each guide of the setup is
/// compiled once, before the workers start. It waits for them. Errors: a text of more than `LONGEST_TEXT` bytes, exactly; a thread that
/// the system doesn't start; out of memory. Then nothing is given.
/// X12.5, interchange and interchange acknowledgment; X12.6, functional group and transaction set; 999 guide (005010X231).
pub fn run_night<G: Gate + Sync, R: Threads + Wait + Clock + Sync>(
    rt: &R,
    alloc: Global,
    text: &[u8],
    setup: &Setup,
    at: &At,
    workers: u64,
    cuts: &Cuts,
    gate: &G,
) -> Result<Night, RunFault>
    requires workers { (1 ≤ workers) × (workers ≤ 64) }
    requires cuts { cuts.now.text_len ≡ length text.now }
    ensures too_long { IsErrOf result RunFault.InputTooLong ↔ (LONGEST_TEXT < length text.now) }
    ensures definition { IfOk result (λ night. defined.IsNight text.now (seen_setup setup.now) at.now (seen_night night)) }
{
    if !within_limit(text.len() as u64) {
        return Err(RunFault::InputTooLong);
    }
    are_sound(setup, at);
    whole_nights_are_one();
    let night = share_night(rt, alloc, text, setup, at, workers, cuts, gate)?;
    Ok(night)
}

/// The night of a text that isn't too long: all of it is found out by the workers, and written after them.
fn share_night<'a, G: Gate + Sync, R: Threads + Wait + Clock + Sync>(
    rt: &R,
    alloc: Global,
    text: &'a [u8],
    setup: &'a Setup,
    at: &At,
    workers: u64,
    cuts: &Cuts,
    gate: &G,
) -> Result<Night, RunFault>
    requires few { length text.now ≤ LONGEST_TEXT }
    requires workers { (1 ≤ workers) × (workers ≤ 64) }
    requires cuts { cuts.now.text_len ≡ length text.now }
    ensures night { IfOk result (IsNight text.now setup.now at.now) }
    ensures long { IsErrOf result RunFault.InputTooLong → ⊥ }
{
    let guides = FastGuides::of(alloc, setup)?;
    let found = find_out(rt, alloc, setup, &guides, text, cuts, workers, gate)?;
    let FoundText { index, rows } = found;
    let writers = ManyThreads { rt, workers };
    let night = write_found(alloc, &writers, setup, at, &index, rows)?;
    Ok(night)
}
