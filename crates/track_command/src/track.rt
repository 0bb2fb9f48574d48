ghost use Rattle.std.specs.Prelude.{◌≡◌, ◌≢◌, ◌<◌, ◌≤◌, ◌⊎◌, ◌∷◌, [], ℕ, List, Some, IfOk, IfErr, IfSome, IsErrOf, IsOkAnd, OnErr, OnOk};
ghost use Rattle.std.specs.Prelude.{length, map};
ghost use Rattle.std.specs.Io.KnownBytes.{Appends};
ghost use Rattle.hub_kinds.specs.declared.limits.TheConstants.{LONGEST_TEXT};
ghost use Rattle.stream_read.specs.Source.{HasFailed};
ghost use Rattle.night_command.specs.Outbox.{AddsFiles, KeepsFiles};
ghost use Rattle.night_command.specs.SetupFiles.{IsSetupAt};
ghost use Rattle.track_equal.specs.Table.{IsTableOf};
ghost use Rattle.program_frame.specs.Matching.{AsksForText};
ghost use Rattle.track_command.specs.CommandLine.{IsCommandLine, NamesNight, guide_paths, track_app};
ghost use Rattle.track_command.specs.Failure.{IsOfTrack, stream_failure};
ghost use Rattle.track_command.specs.Outcome.{IsGiven, IsOutcome, IsTrackBy, IsTrackOfSource, status_of};

use crate::command::{Asked, Options, read_words};
use crate::failure::TrackFailure;
use crate::free::{Free, is_free};
use crate::whole::Places;
use hub_kinds::{Lent, NoMemory, copy_text};
use night_command::{Failure, PutFault, setup_at, source_of};
use partner_setup::Setup;
use set_documents::Document;
use std::alloc::Global;
use std::convert::AsStr;
use std::fs::OpenFile;
use std::io::{Read, Write};
use std::rt::Files;
use stream_read::{Held, Source, StreamFault};
use system_io::{Opened, Outbox, open_at, print_text};
use track_equal::tracks_are_one;
use track_table::{Track, track_plain};

/// More bytes than an input may have.
const ALL: usize = 4_294_967_296;

/// Runs the program on its arguments, without its name, and gives its exit status: 0 or 1 where it has put the table of a
/// night or printed a text that was asked for, otherwise the status of the failure whose line it has printed on `err`.
pub fn track_main<R, S, O, E>(rt: &R, words: &[S], out: &mut O, err: &mut E) -> u8
where
    R: Files + AllocGlobal,
    S: AsStr,
    O: Write,
    E: Write,
    ensures status { result ≤ 6 }
    ensures silent { 2 ≤ result → result ≢ 5 → out.new ≡ out.old }
    ensures quiet { result ≤ 1 → err.new ≡ err.old }
    ensures usage { result ≡ 2 → IsCommandLine (map S.text words.now) → ⊥ }
    ensures setup { result ≡ 3 → NamesNight (map S.text words.now) }
    ensures input { result ≡ 4 → NamesNight (map S.text words.now) }
    ensures output { result ≡ 5 → NamesNight (map S.text words.now) ⊎ AsksForText track_app (map S.text words.now) }
    ensures tracked { result ≤ 1 → IsOutcome (map S.text words.now) result (O.contents out.old) (O.contents out.new) }
{
    match read_words(rt.alloc(), words) {
        Ok(Asked::Run(options)) => run(rt, &options, err),
        Ok(Asked::Show(text)) => show(text.as_bytes(), out, err),
        Err(mistake) => mistake.report(err),
    }
}

/// Prints a text that was asked for. Gives 0, or the status of a failure of standard output.
fn show<O: Write, E: Write>(text: &[u8], out: &mut O, err: &mut E) -> u8
    ensures status { (result ≡ 0) ⊎ (result ≡ 5) }
    ensures printed { result ≢ 5 → Appends (O.contents out.old) (O.contents out.new) text.now }
    ensures quiet { result ≢ 5 → err.new ≡ err.old }
{
    if print_text(text, out).is_err() {
        return TrackFailure::Night(Failure::Stdout).report(err);
    }
    0
}

/// Tracks the night that these options name, where its file can go to its place.
fn run<R, E>(rt: &R, options: &Options<'_>, err: &mut E) -> u8
where
    R: Files + AllocGlobal,
    E: Write,
    ensures status { result ≤ 6 }
    ensures words { result ≢ 2 }
    ensures quiet { result ≤ 1 → err.new ≡ err.old }
    ensures tracked { result ≤ 1 → IsTrackBy options.now result }
{
    match is_free(rt, options.output) {
        Ok(free) => run_free(rt, options, &free, err),
        Err(failure) => failure.report(err),
    }
}

/// Tracks the night that these options name, whose file goes to a place that was seen free.
fn run_free<R, E>(rt: &R, options: &Options<'_>, free: &Free<'_>, err: &mut E) -> u8
where
    R: Files + AllocGlobal,
    E: Write,
    requires { free.now ≡ options.now.output.now }
    ensures status { result ≤ 6 }
    ensures words { result ≢ 2 }
    ensures quiet { result ≤ 1 → err.new ≡ err.old }
    ensures tracked { result ≤ 1 → IsTrackBy options.now result }
{
    let guides = options.guides.as_slice();
    match setup_at(rt, guides, options.setup, options.counters) {
        Ok(setup) => run_by(rt, options, free, &setup, err),
        Err(refusal) => TrackFailure::Night(refusal).report(err),
    }
}

/// Tracks the night that these options name by `setup`, which is theirs.
fn run_by<R, E>(rt: &R, options: &Options<'_>, _free: &Free<'_>, setup: &Setup, err: &mut E) -> u8
where
    R: Files + AllocGlobal,
    E: Write,
    requires setup { IsSetupAt (guide_paths options.now) options.now.setup.now options.now.counters.now setup.now }
    requires free { _free.now ≡ options.now.output.now }
    ensures status { result ≤ 6 }
    ensures words { result ≢ 2 }
    ensures taken { result ≢ 3 }
    ensures quiet { result ≤ 1 → err.new ≡ err.old }
    ensures tracked { result ≤ 1 → IsTrackBy options.now result }
{
    let mut places = Places::of(rt);
    let input = open_at(rt, options.input);
    give_opened(rt.alloc(), options, setup, input, &mut places, err)
}

/// Puts the table of the night of the input that these options name at the path that they name. Where that fails, the status of the
/// failure, whose line is on `err`.
pub fn give_opened<F, B, E>(
    alloc: Global,
    options: &Options<'_>,
    setup: &Setup,
    input: Opened<'_, F>,
    places: &mut B,
    err: &mut E,
) -> u8
where
    F: Read + OpenFile + Drop,
    B: Outbox,
    E: Write,
    requires input { input.path ≡ options.now.input.now }
    requires places { (name : List ℕ) → B.path places.old name ≡ Some name }
    requires count { B.faults places.old < 18446744073709551615 }
    ensures status { result ≤ 6 }
    ensures words { result ≢ 2 }
    ensures taken { result ≢ 3 }
    ensures quiet { result ≤ 1 → err.new ≡ err.old }
    ensures given { result ≤ 1 → IsOkAnd input.entry.answer (λ file. IsGiven (F.remaining file) setup.now options.now.documents.items
        options.now.output.now result (B.contents places.old) (B.contents places.new)) }
{
    match source_of(input.into_answer()) {
        Ok(source) => {
            let mut source = source;
            give_track(
                alloc,
                &mut source,
                places,
                setup,
                options.documents.as_slice(),
                options.output.as_bytes(),
                err,
            )
        }
        Err(fault) => TrackFailure::Night(fault).report(err),
    }
}

/// Puts the table of the night of a source into an outbox, as the file of this name, and gives the night's status. Where that fails, the
/// status of the failure, whose line is on `err`.
pub fn give_track<S, B, E>(
    alloc: Global,
    source: &mut S,
    outbox: &mut B,
    setup: &Setup,
    documents: &[Document<'_>],
    name: &[u8],
    err: &mut E,
) -> u8
where
    S: Source,
    B: Outbox,
    E: Write,
    requires { B.faults outbox.old < 18446744073709551615 }
    ensures status { result ≤ 6 }
    ensures words { result ≢ 2 }
    ensures taken { result ≢ 3 }
    ensures quiet { result ≤ 1 → err.new ≡ err.old }
    ensures given { result ≤ 1 → IsGiven (S.remaining source.old) setup.now documents.now name.now result
        (B.contents outbox.old) (B.contents outbox.new) }
    ensures left { 2 ≤ result → KeepsFiles (B.contents outbox.old) (B.contents outbox.new) }
{
    match track_in(alloc, source, outbox, setup, documents, name) {
        Ok(track) => status(&track),
        Err(failure) => TrackFailure::Night(failure).report(err),
    }
}

/// The status of a night: 0 where it was clean, otherwise 1.
fn status(track: &Track) -> u8
    ensures value { result ≡ status_of track.now }
    ensures bound { result ≤ 1 }
{
    if track.clean { 0 } else { 1 }
}

/// The table of the night of a source, which is put into an outbox as the file of this name when all of it is known.
pub fn track_in<S, B>(
    alloc: Global,
    source: &mut S,
    outbox: &mut B,
    setup: &Setup,
    documents: &[Document<'_>],
    name: &[u8],
) -> Result<Track, Failure<'static>>
where
    S: Source,
    B: Outbox,
    requires { B.faults outbox.old < 18446744073709551615 }
    ensures track { IfOk result (IsTrackOfSource (S.remaining source.old) setup.now documents.now) }
    ensures file { IfOk result (λ track. AddsFiles (B.contents outbox.old) (B.contents outbox.new) ((name.now, track.table) ∷ [])) }
    ensures long { IsErrOf result Failure.InputTooLong → IfSome (S.remaining source.old) (λ xs. LONGEST_TEXT < length xs) }
    ensures many { IsErrOf result Failure.InputTooLong → LONGEST_TEXT < S.given source.new }
    ensures unread { IsErrOf result Failure.Input → HasFailed (S.faults source.old) (S.faults source.new) (S.interruptions source.new) }
    ensures left { IfErr result (λ _. KeepsFiles (B.contents outbox.old) (B.contents outbox.new)) }
    ensures err { IfErr result IsOfTrack }
{
    let mut held = Held::new(alloc);
    if let Err(fault) = held.fill(source, ALL) {
        return Err(of_stream(fault));
    }
    let track = tracked(alloc, held.bytes(), setup, documents)?;
    put_table(alloc, outbox, name, track.table.as_slice())?;
    Ok(track)
}

/// The table of the night of a text by a setup, which is the definition's.
fn tracked(
    alloc: Global,
    text: &[u8],
    setup: &Setup,
    documents: &[Document<'_>],
) -> Result<Track, NoMemory>
    requires { length text.now ≤ LONGEST_TEXT }
    ensures { IfOk result (IsTableOf text.now setup.now documents.now) }
{
    tracks_are_one();
    track_plain(alloc, text, setup, documents)
}

fn of_stream(fault: StreamFault) -> Failure<'static>
    ensures { result ≡ stream_failure fault }
{
    match fault {
        StreamFault::InputTooLong => Failure::InputTooLong,
        StreamFault::NoMemory => Failure::Memory,
        StreamFault::Read => Failure::Input,
    }
}

/// Puts a file into an outbox.
fn put_table<B: Outbox>(
    alloc: Global,
    outbox: &mut B,
    name: &[u8],
    bytes: &[u8],
) -> Result<(), PutFault>
    requires { B.faults outbox.old < 18446744073709551615 }
    ensures file { OnOk result (AddsFiles (B.contents outbox.old) (B.contents outbox.new) ((name.now, bytes.now) ∷ [])) }
    ensures left { OnErr result (KeepsFiles (B.contents outbox.old) (B.contents outbox.new)) }
{
    let kept = copy_text(alloc, name)?;
    match outbox.put(name, &[Lent::new(bytes)]) {
        Ok(_) => Ok(()),
        Err(error) => Err(PutFault::of_error(error, kept)),
    }
}
