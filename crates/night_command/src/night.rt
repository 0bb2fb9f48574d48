ghost use Rattle.std.specs.Prelude.{◌≡◌, ◌≢◌, ◌<◌, ◌≤◌, ◌⊎◌, ℕ, List, Some, IfOk, IfErr, IfSome, IsErrOf, IsOkAnd, length, map};
ghost use Rattle.std.specs.Io.KnownBytes.{Appends};
ghost use Rattle.stream_read.specs.Source.{GivenUp, HasFailed, TriedAgain};
ghost use Rattle.system_io.specs.Outbox.{path_in};
ghost use Rattle.program_frame.specs.Matching.{AsksForText};
ghost use Rattle.night_command.specs.CommandLine.{CanShare, IsCommandLine, NamesNight, guide_paths, hub_app};
ghost use Rattle.night_command.specs.Failure.{IsOfNight};
ghost use Rattle.night_command.specs.NightFiles.{night_files};
ghost use Rattle.night_command.specs.Outbox.{AddsFiles, KeepsFiles};
ghost use Rattle.night_command.specs.Outcome.{ArePut, IsGiven, IsNightOfSource, IsOutcome, IsPrinted};
ghost use Rattle.night_command.specs.Outcome.{LeavesFront, LeavesOutbox, status_of, text_of};
ghost use Rattle.night_command.specs.SetupFiles.{IsSetupAt};
ghost use Rattle.night_command.specs.declared.outcome.Outcome.{Outcome};

use crate::command::{Asked, Options, read_words};
use crate::failure::Failure;
use crate::input::source_of;
use crate::night_files::put_night;
use crate::outcome::{Outcome, finish};
use crate::setup::setup_at;
use crate::sharing::Sharing;
use hub_kinds::LONGEST_TEXT;
use hub_run::{Night, OpenGate, Source, run_stream};
use moment::At;
use night_equal_read::file_references_are_plain;
use partner_setup::Setup;
use std::alloc::Global;
use std::convert::AsStr;
use std::fs::OpenFile;
use std::io::{Read, Write};
use std::rt::Files;
use std::sync::Wait;
use std::thread::Threads;
use std::time::Clock;
use system_io::{Directory, Opened, Outbox, open_at};

/// How many bytes of the input are read at a time.
const WINDOW: usize = 16_777_216;

/// Runs the program on its arguments, without its name, and gives its exit status:
/// 0 or 1 where it has run a night or printed a text that was asked for, otherwise the status
/// of the failure whose line it has printed on `err`.
pub fn night_main<R, S, O, E>(rt: &R, words: &[S], out: &mut O, err: &mut E) -> u8
where
    R: Files + AllocGlobal + Threads + Wait + Clock + Sync,
    S: AsStr,
    O: Write,
    E: Write,
    ensures status { result ≤ 6 }
    ensures silent { 2 ≤ result → result ≢ 5 → out.new ≡ out.old }
    ensures quiet { result ≤ 1 → err.new ≡ err.old }
    ensures usage { result ≡ 2 → IsCommandLine (map S.text words.now) → ⊥ }
    ensures setup { result ≡ 3 → NamesNight (map S.text words.now) }
    ensures input { result ≡ 4 → NamesNight (map S.text words.now) }
    ensures output { result ≡ 5 → NamesNight (map S.text words.now) ⊎ AsksForText hub_app (map S.text words.now) }
    ensures printed { result ≤ 1 → (o : Outcome) × IsOutcome (map S.text words.now) o
        × (result ≡ status_of o) × Appends (O.contents out.old) (O.contents out.new) (text_of o) }
{
    match read_words(rt.alloc(), words) {
        Ok(Asked::Run(options)) => run(rt, &options, out, err),
        Ok(Asked::Show(text)) => finish(&Outcome::Shown(text), out, err),
        Err(mistake) => mistake.report(err),
    }
}

/// Runs the night that these options name.
fn run<R, O, E>(rt: &R, options: &Options<'_>, out: &mut O, err: &mut E) -> u8
where
    R: Files + AllocGlobal + Threads + Wait + Clock + Sync,
    O: Write,
    E: Write,
    requires sharing { CanShare options.now.sharing }
    ensures status { result ≤ 6 }
    ensures words { result ≢ 2 }
    ensures silent { 2 ≤ result → result ≢ 5 → out.new ≡ out.old }
    ensures quiet { result ≤ 1 → err.new ≡ err.old }
    ensures printed { result ≤ 1 → IsPrinted options.now result (O.contents out.old) (O.contents out.new) }
{
    let guides = options.guides.as_slice();
    match setup_at(rt, guides, options.setup, options.counters) {
        Ok(setup) => run_by(rt, options, &setup, out, err),
        Err(refusal) => refusal.report(err),
    }
}

/// Runs the night by the setup of these options.
fn run_by<R, O, E>(rt: &R, options: &Options<'_>, setup: &Setup, out: &mut O, err: &mut E) -> u8
where
    R: Files + AllocGlobal + Threads + Wait + Clock + Sync,
    O: Write,
    E: Write,
    requires made { IsSetupAt (guide_paths options.now) options.now.setup.now options.now.counters.now setup.now }
    requires sharing { CanShare options.now.sharing }
    ensures status { result ≤ 6 }
    ensures words { result ≢ 2 }
    ensures taken { result ≢ 3 }
    ensures silent { 2 ≤ result → result ≢ 5 → out.new ≡ out.old }
    ensures quiet { result ≤ 1 → err.new ≡ err.old }
    ensures printed { result ≤ 1 → IsPrinted options.now result (O.contents out.old) (O.contents out.new) }
{
    let mut folder = Directory::at(rt, options.output);
    let input = open_at(rt, options.input);
    give_opened(rt, options, setup, input, &mut folder, out, err)
}

/// Gives the night of the input that these options name, into the folder that they name, by the setup of these options. Where that
/// fails, the status of the failure, whose line is on `err`.
pub fn give_opened<R, F, B, O, E>(
    rt: &R,
    options: &Options<'_>,
    setup: &Setup,
    input: Opened<'_, F>,
    folder: &mut B,
    out: &mut O,
    err: &mut E,
) -> u8
where
    R: AllocGlobal + Threads + Wait + Clock + Sync,
    F: Read + OpenFile + Drop,
    B: Outbox,
    O: Write,
    E: Write,
    requires sharing { CanShare options.now.sharing }
    requires input { input.path ≡ options.now.input.now }
    requires folder { (name : List ℕ) → B.path folder.old name ≡ Some (path_in options.now.output.now name) }
    requires count { B.faults folder.old < 18446744073709551615 }
    ensures status { result ≤ 6 }
    ensures words { result ≢ 2 }
    ensures taken { result ≢ 3 }
    ensures silent { 2 ≤ result → result ≢ 5 → out.new ≡ out.old }
    ensures quiet { result ≤ 1 → err.new ≡ err.old }
    ensures given { result ≤ 1 → IsOkAnd input.entry.answer (λ file. IsGiven (F.remaining file) setup.now options.now.at result
        (B.contents folder.old) (B.contents folder.new) (O.contents out.old) (O.contents out.new)) }
{
    match source_of(input.into_answer()) {
        Ok(source) => {
            let mut source = source;
            give_night(
                rt,
                rt.alloc(),
                &mut source,
                folder,
                setup,
                &options.at,
                options.sharing,
                out,
                err,
            )
        }
        Err(fault) => fault.report(err),
    }
}

/// Gives the night of a source: its files into the outbox, then the last line of its report on standard output, and its status.
/// Where that fails, the status of the failure, whose line is on `err`.
pub fn give_night<R, S, B, O, E>(
    rt: &R,
    alloc: Global,
    source: &mut S,
    outbox: &mut B,
    setup: &Setup,
    at: &At,
    sharing: Sharing,
    out: &mut O,
    err: &mut E,
) -> u8
where
    R: Threads + Wait + Clock + Sync,
    S: Source,
    B: Outbox,
    O: Write,
    E: Write,
    requires sharing { CanShare sharing }
    requires count { B.faults outbox.old < 18446744073709551615 }
    ensures status { result ≤ 6 }
    ensures words { result ≢ 2 }
    ensures taken { result ≢ 3 }
    ensures silent { 2 ≤ result → (out.new ≡ out.old) ⊎ ArePut (S.remaining source.old) setup.now at.now
        (B.contents outbox.old) (B.contents outbox.new) }
    ensures stdout { 2 ≤ result → result ≢ 5 → out.new ≡ out.old }
    ensures quiet { result ≤ 1 → err.new ≡ err.old }
    ensures given { result ≤ 1 → IsGiven (S.remaining source.old) setup.now at.now result
        (B.contents outbox.old) (B.contents outbox.new) (O.contents out.old) (O.contents out.new) }
    ensures none { result ≡ 4 → KeepsFiles (B.contents outbox.old) (B.contents outbox.new) }
    ensures left { 2 ≤ result → LeavesFront (S.remaining source.old) setup.now at.now (B.contents outbox.old) (B.contents outbox.new) }
{
    match night_in(rt, alloc, source, outbox, setup, at, sharing) {
        Ok(night) => finish(&Outcome::Ran(night), out, err),
        Err(failure) => failure.report(err),
    }
}

/// The night of a source, whose files are put into the outbox when all of it is known.
pub fn night_in<R, S, B>(
    rt: &R,
    alloc: Global,
    source: &mut S,
    outbox: &mut B,
    setup: &Setup,
    at: &At,
    sharing: Sharing,
) -> Result<Night, Failure<'static>>
where
    R: Threads + Wait + Clock + Sync,
    S: Source,
    B: Outbox,
    requires sharing { CanShare sharing }
    requires count { B.faults outbox.old < 18446744073709551615 }
    ensures night { IfOk result (IsNightOfSource (S.remaining source.old) setup.now at.now) }
    ensures files { IfOk result (λ night. AddsFiles (B.contents outbox.old) (B.contents outbox.new) (night_files setup.now night)) }
    ensures long { IsErrOf result Failure.InputTooLong → IfSome (S.remaining source.old) (λ xs. LONGEST_TEXT < length xs) }
    ensures many { IsErrOf result Failure.InputTooLong → LONGEST_TEXT < S.given source.new }
    ensures unread { IsErrOf result Failure.Input → HasFailed (S.faults source.old) (S.faults source.new) (S.interruptions source.new) }
    ensures tried { (IsErrOf result Failure.Input → ⊥)
        → TriedAgain (S.interruptions source.old) (S.longest source.old) (S.longest source.new) }
    ensures given_up { GivenUp (S.interruptions source.old) (S.longest source.old) (S.longest source.new) }
    ensures too_long { IsErrOf result Failure.InputTooLong → KeepsFiles (B.contents outbox.old) (B.contents outbox.new) }
    ensures none { IsErrOf result Failure.Input → KeepsFiles (B.contents outbox.old) (B.contents outbox.new) }
    ensures some { IfErr result (LeavesOutbox (S.remaining source.old) setup.now at.now (B.contents outbox.old) (B.contents outbox.new)) }
    ensures err { IfErr result IsOfNight }
{
    file_references_are_plain();
    let night = run_stream(
        rt,
        alloc,
        source,
        WINDOW,
        sharing.piece as usize,
        setup,
        at,
        sharing.workers,
        &OpenGate,
    )?;
    put_night(alloc, &night, setup, outbox)?;
    Ok(night)
}
