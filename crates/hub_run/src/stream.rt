ghost use Rattle.std.specs.Prelude.{◌≡◌, ◌<◌, ◌≤◌, length, IfOk, IfSome, IsErrOf, OnOk};
ghost use Rattle.std.specs.Io.KnownBytes.{IsAtEnd};
ghost use Rattle.stream_read.specs.Source.{GivenUp, HasFailed, TriedAgain};
ghost use Rattle.hub_run.specs.StreamNight.{IsNightRead};

use crate::plain::are_sound;
use crate::run_fault::RunFault;
use hub_kinds::LONGEST_TEXT;
use moment::At;
use night_batches::Night;
use night_equal_read::whole_nights_are_one;
use night_stream::{Crew, stream_night};
use partner_setup::Setup;
use std::alloc::Global;
use std::sync::Wait;
use std::thread::Threads;
use std::time::Clock;
use stream_read::Source;
use worker_pool::Gate;

/// The night of a stream that is read in windows of this many bytes, cut into pieces of this many, and shared among 1 to 64 workers, after
/// a gate: for every window, every size of the pieces and every number of workers, what the definitions give for the bytes that were read,
/// front to back, byte for byte. Interchanges that are whole are worked on before more is read. It waits for its workers. Errors: more
/// bytes than `LONGEST_TEXT`; a reader that fails, or is interrupted more than 1,000 times in a row; a thread that the system doesn't
/// start; out of memory. Then nothing is given.
/// X12.5, interchange and interchange acknowledgment; X12.6, functional group and transaction set; 999 guide (005010X231).
pub fn run_stream<S: Source, G: Gate + Sync, R: Threads + Wait + Clock + Sync>(
    rt: &R,
    alloc: Global,
    source: &mut S,
    window: usize,
    piece: usize,
    setup: &Setup,
    at: &At,
    workers: u64,
    gate: &G,
) -> Result<Night, RunFault>
    requires window { 1 ≤ window }
    requires piece { 1 ≤ piece }
    requires workers { (1 ≤ workers) × (workers ≤ 64) }
    ensures night { IfOk result (IsNightRead (S.remaining source.old) setup.now at.now) }
    ensures long { IsErrOf result RunFault.InputTooLong → IfSome (S.remaining source.old) (λ xs. LONGEST_TEXT < length xs) }
    ensures many { IsErrOf result RunFault.InputTooLong → LONGEST_TEXT < S.given source.new }
    ensures short { OnOk result (IfSome (S.remaining source.old) (λ xs. length xs ≤ LONGEST_TEXT)) }
    ensures end { OnOk result (IsAtEnd (S.remaining source.new)) }
    ensures fault { IsErrOf result RunFault.Read → HasFailed (S.faults source.old) (S.faults source.new) (S.interruptions source.new) }
    ensures none { (IsErrOf result RunFault.Read → ⊥) → S.faults source.new ≡ S.faults source.old }
    ensures tried { (IsErrOf result RunFault.Read → ⊥)
        → TriedAgain (S.interruptions source.old) (S.longest source.old) (S.longest source.new) }
    ensures given_up { GivenUp (S.interruptions source.old) (S.longest source.old) (S.longest source.new) }
{
    are_sound(setup, at);
    whole_nights_are_one();
    let crew = Crew {
        rt,
        gate,
        workers,
        piece,
    };
    let night = stream_night(&crew, alloc, source, window, setup, at)?;
    Ok(night)
}
