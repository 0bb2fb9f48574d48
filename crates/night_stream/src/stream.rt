ghost use Rattle.std.specs.Prelude.{◌≡◌, ◌≤◌, ◌<◌, ◌+◌, ℕ, List, [], Option, true, false, IfErr, IfOk, IfSome, OnOk, IsErrOf, length};
ghost use Rattle.std.specs.Io.KnownBytes.{IsAtEnd};
ghost use Rattle.hub_kinds.specs.declared.limits.TheConstants.{LONGEST_TEXT};
ghost use Rattle.stream_read.specs.Held.{HasRead};
ghost use Rattle.stream_read.specs.Source.{GivenUp, HasFailed, TriedAgain};
ghost use Rattle.stream_read.specs.declared.held.StreamFault.TheVariants.{InputTooLong, Read};
ghost use Rattle.night_stream.specs.Crew.{IsReady};
ghost use Rattle.night_stream.specs.Reading.{IsNightOfStream, IsReadUpTo};
ghost use Rattle.night_stream.specs.Stopped.{IsOfPool};
ghost use Rattle.night_stream.specs.declared.stopped.Stopped.TheVariants.{Stream};

use crate::carried::{Carried, add_batch, nothing_carried};
use crate::crew::Crew;
use crate::stopped::Stopped;
use hub_kinds::NoMemory;
use job_pool::ManyThreads;
use moment::At;
use night_batches::Night;
use partner_setup::Setup;
use set_findings::FastGuides;
use std::alloc::Global;
use std::sync::Wait;
use std::thread::Threads;
use std::time::Clock;
use stream_read::{Held, Source};
use whole_interchanges::{Scout, advance_by, forget};
use worker_pool::Gate;

/// How far a stream is worked on.
#[derive(Drop)]
pub(crate) struct Reading {
    /// Up to where the interchanges are whole in what is held, and the one that is open there.
    scout: Scout,
    /// Where what is held begins in the stream.
    base: u64,
    /// What is carried.
    carried: Carried,
}

/// At the begin of a stream.
fn at_begin(alloc: Global, setup: &Setup) -> Result<Reading, NoMemory>
    ensures { IfOk result (λ reading. (at : List ℕ) (first : Option (List ℕ))
        → IsReadUpTo setup.now at first first (record { bytes = []; total = 0 }) reading) }
{
    let carried = nothing_carried(alloc, setup)?;
    Ok(Reading {
        scout: Scout {
            at: 0,
            inside: None,
        },
        base: 0,
        carried,
    })
}

/// Reads a window more, or what is left. Answers whether it was a whole one.
fn read_on<S: Source>(held: &mut Held, source: &mut S, window: usize) -> Result<bool, Stopped>
    requires { 0 < window }
    ensures read { IfOk result (λ full. (n : ℕ) × HasRead (S.remaining source.old) (S.remaining source.new) held.old held.new n
        × (full ≡ true → n ≡ window) × (full ≡ false → IsAtEnd (S.remaining source.new))) }
    ensures long { IsErrOf result (Stream InputTooLong)
        → IfSome (S.remaining source.old) (λ xs. LONGEST_TEXT < held.old.total + length xs) }
    ensures fault { IsErrOf result (Stream Read) → HasFailed (S.faults source.old) (S.faults source.new) (S.interruptions source.new) }
    ensures none { (IsErrOf result (Stream Read) → ⊥) → S.faults source.new ≡ S.faults source.old }
    ensures few { OnOk result (held.new.total ≤ LONGEST_TEXT) }
    ensures rested { (IsErrOf result (Stream Read) → ⊥) → S.interruptions source.new ≤ S.interruptions source.old }
    ensures tried { (IsErrOf result (Stream Read) → ⊥)
        → TriedAgain (S.interruptions source.old) (S.longest source.old) (S.longest source.new) }
    ensures given_up { GivenUp (S.interruptions source.old) (S.longest source.old) (S.longest source.new) }
    ensures given { OnOk result (held.old.total ≤ S.given source.old → held.new.total ≤ S.given source.new) }
    ensures many { IsErrOf result (Stream InputTooLong) → held.old.total ≤ S.given source.old → LONGEST_TEXT < S.given source.new }
{
    let full = held.fill(source, window)?;
    Ok(full)
}

/// Works on the interchanges that are whole in what is held, and gives their bytes up.
fn go_on<G: Gate + Sync, R: Threads + Wait + Clock + Sync>(
    crew: &Crew<'_, R, G>,
    alloc: Global,
    setup: &Setup,
    guides: &FastGuides<'_>,
    at: &At,
    held: &mut Held,
    reading: Reading,
) -> Result<Reading, Stopped>
    requires crew { IsReady crew.now }
    requires guides { guides.now ≡ setup.now }
    requires few { held.old.total ≤ LONGEST_TEXT }
    requires read { (first : Option (List ℕ)) × (now : Option (List ℕ)) × IsReadUpTo setup.now at.now first now held.old reading }
    ensures read { IfOk result (λ new. (first now : Option (List ℕ)) → IsReadUpTo setup.now at.now first now held.old reading
        → IsReadUpTo setup.now at.now first now held.new new) }
    ensures total { OnOk result (held.new.total ≡ held.old.total) }
    ensures pool { IfErr result IsOfPool }
{
    let Reading {
        scout,
        base,
        carried,
    } = reading;
    let advanced = advance_by(crew.rt, alloc, held.bytes(), scout, crew.workers)?;
    let ahead = advanced.scout;
    let carried = add_batch(
        crew,
        alloc,
        setup,
        guides,
        at,
        base,
        carried,
        &held.bytes()[..ahead.at],
    )?;
    held.give_up(ahead.at);
    Ok(Reading {
        scout: forget(ahead),
        base: base + ahead.at as u64,
        carried,
    })
}

/// Works on all that is held, after which nothing comes, gives it up, and closes the night.
fn finish<G: Gate + Sync, R: Threads + Wait + Clock + Sync>(
    crew: &Crew<'_, R, G>,
    alloc: Global,
    setup: &Setup,
    guides: &FastGuides<'_>,
    at: &At,
    held: Held,
    reading: Reading,
) -> Result<Night, Stopped>
    requires crew { IsReady crew.now }
    requires guides { guides.now ≡ setup.now }
    requires few { held.total ≤ LONGEST_TEXT }
    requires read { (first : Option (List ℕ)) × (now : Option (List ℕ)) × IsReadUpTo setup.now at.now first now held reading }
    ensures night { IfOk result (λ night. (first now : Option (List ℕ)) → IsReadUpTo setup.now at.now first now held reading
        → IsAtEnd now → IsNightOfStream first setup.now at.now night) }
    ensures pool { IfErr result IsOfPool }
{
    let Reading { base, carried, .. } = reading;
    let all = add_batch(crew, alloc, setup, guides, at, base, carried, held.bytes())?;
    drop(held);
    let Carried { writing, .. } = all;
    let writers = ManyThreads {
        rt: crew.rt,
        workers: crew.workers,
    };
    let night = writing.close_by(alloc, &writers, setup, at)?;
    Ok(night)
}

/// The night of a stream that is read in windows of this many bytes, by a setup and at a moment, and shared among workers: after each full
/// window, and at the end, the interchanges that are whole by then are worked on, before more is read. The end of a header or a trailer
/// may be in the next window. Each guide of the setup is compiled once, before the first window. Errors: more bytes than
/// `LONGEST_TEXT`, a reader that fails or is interrupted more than 1,000 times in a row, a thread that the system doesn't start, out
/// of memory. X12.5, interchange.
pub fn stream_night<S: Source, G: Gate + Sync, R: Threads + Wait + Clock + Sync>(
    crew: &Crew<'_, R, G>,
    alloc: Global,
    source: &mut S,
    window: usize,
    setup: &Setup,
    at: &At,
) -> Result<Night, Stopped>
    requires crew { IsReady crew.now }
    requires window { 0 < window }
    ensures night { IfOk result (IsNightOfStream (S.remaining source.old) setup.now at.now) }
    ensures long { IsErrOf result (Stream InputTooLong) → IfSome (S.remaining source.old) (λ xs. LONGEST_TEXT < length xs) }
    ensures many { IsErrOf result (Stream InputTooLong) → LONGEST_TEXT < S.given source.new }
    ensures short { OnOk result (IfSome (S.remaining source.old) (λ xs. length xs ≤ LONGEST_TEXT)) }
    ensures end { OnOk result (IsAtEnd (S.remaining source.new)) }
    ensures fault { IsErrOf result (Stream Read) → HasFailed (S.faults source.old) (S.faults source.new) (S.interruptions source.new) }
    ensures none { (IsErrOf result (Stream Read) → ⊥) → S.faults source.new ≡ S.faults source.old }
    ensures tried { (IsErrOf result (Stream Read) → ⊥)
        → TriedAgain (S.interruptions source.old) (S.longest source.old) (S.longest source.new) }
    ensures given_up { GivenUp (S.interruptions source.old) (S.longest source.old) (S.longest source.new) }
{
    let guides = FastGuides::of(alloc, setup)?;
    let mut held = Held::new(alloc);
    let mut reading = at_begin(alloc, setup)?;
    while read_on(&mut held, source, window)? {
        reading = go_on(crew, alloc, setup, &guides, at, &mut held, reading)?;
    }
    let night = finish(crew, alloc, setup, &guides, at, held, reading)?;
    Ok(night)
}
