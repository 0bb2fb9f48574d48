ghost use Rattle.std.specs.Prelude.{◌≡◌, false, map, IfOk, IfErr};
ghost use Rattle.clap.specs.Words.{app_of, first_value, found_of, rule_of};
ghost use Rattle.system_io.specs.Words.{values_found};
ghost use Rattle.program_frame.specs.Mistake.{IsUsage};
ghost use Rattle.track_command.specs.CommandLine.{AreGiven, IsAsked, IsCommandLine, IsGiven, document_rule, night_app, track_app};
ghost use Rattle.track_command.specs.Failure.{IsOfWords, status_of};

use crate::failure::TrackFailure;
use clap::{Arg, ArgMatches, Command};
use hub_kinds::copy_text;
use moment::At;
use night_command::{
    Failure, Sharing, moment_given, option_wanted, piece_option, sharing_given, with_night,
    workers_option,
};
use program_frame::{Matched, Mistake, match_words, option_repeated, program};
use set_documents::{Document, documents_given};
use std::alloc::{AllocError, Global};
use std::convert::AsStr;
use system_io::{copied, with_argument};

/// What comes after the options in the text of `--help`.
const COLUMNS_AND_STATUSES: &str =
    "FILE of --track: a row for each set and receiver, one for a set that nobody gets and one for
each refused interchange, as comma-separated values (RFC 4180).

Status:
  0  a clean night
  1  a complete night; something was refused, rejected or held, or is outside
  2  usage
  3  a guide, the setup or the counters
  4  the input
  5  an output
  6  no memory

Example:
  nighthub_track --setup setup.toml --guide h850.toml --counters counters.toml --at 202603011530 --in in.x12 --track track.csv";

/// The files and the moment of a night, and what is shown of it. Each file is named by its path.
#[derive(Debug, Drop)]
pub struct Options<'a> {
    /// The setup.
    pub setup: &'a str,
    /// The guides, in the order in which they are given.
    pub guides: Vec<&'a str>,
    /// The counters of the night before.
    pub counters: &'a str,
    /// The day and time that the night bears.
    pub at: At,
    /// What came in.
    pub input: &'a str,
    /// The file for the table.
    pub output: &'a str,
    /// Which elements are shown as the numbers of documents: those that are given, then the usual ones.
    pub documents: Vec<Document<'a>>,
    /// How a night of these arguments is shared, which changes nothing here.
    pub sharing: Sharing,
}

/// What the arguments ask for.
#[derive(Debug, Drop)]
pub enum Asked<'a> {
    /// To track a night.
    Run(Options<'a>),
    /// To show a text: help, or the version.
    Show(String),
}

/// Reads the program's arguments without its name.
pub(crate) fn read_words<'a, S: AsStr>(
    alloc: Global,
    words: &'a [S],
) -> Result<Asked<'a>, TrackFailure<'a>>
    ensures asked { IfOk result (IsAsked (map S.text words.now)) }
    ensures usage { IfErr result (λ failed. status_of failed ≡ 2 → IsCommandLine (map S.text words.now) → ⊥) }
    ensures err { IfErr result IsOfWords }
{
    let command = command(alloc)?;
    match match_words(alloc, command, words) {
        Ok(Matched::Values(values)) => run_asked(alloc, &values),
        Ok(Matched::Text(text)) => Ok(Asked::Show(text)),
        Err(mistake) => Err(of_mistake(mistake)),
    }
}

/// The failure that a mistake in the arguments is.
fn of_mistake<'a>(mistake: Mistake) -> TrackFailure<'a>
    ensures usage { status_of result ≡ 2 → IsUsage mistake }
    ensures words { IsOfWords result }
{
    match mistake {
        Mistake::Usage(text) => TrackFailure::Usage(text),
        Mistake::Memory => TrackFailure::Night(Failure::Memory),
    }
}

fn command<'a>(alloc: Global) -> Result<Command<'a>, AllocError>
    ensures { IfOk result (λ command. app_of command ≡ track_app) }
{
    let command = night_command(alloc)?;
    let command = with_argument(command, document(alloc))?;
    let workers = workers_option(alloc, "Taken as nighthub takes it, and changes nothing");
    let command = with_argument(command, workers)?;
    let piece = piece_option(alloc, "Taken as nighthub takes it, and changes nothing");
    with_argument(command, piece)
}

/// The command with the options that name a night.
fn night_command<'a>(alloc: Global) -> Result<Command<'a>, AllocError>
    ensures { IfOk result (λ command. app_of command ≡ night_app) }
{
    let command = program(
        alloc,
        "nighthub_track",
        "Says where each set of a night is",
        COLUMNS_AND_STATUSES,
    );
    let command = with_night(alloc, command)?;
    let output = option_wanted(
        alloc,
        "track",
        "FILE",
        "The file for the table, which is written whole",
    );
    with_argument(command, output)
}

/// The option that names an element to be shown, once for each kind of set.
fn document<'a>(alloc: Global) -> Arg<'a>
    ensures rule { rule_of result ≡ document_rule }
    ensures local { result.global ≡ false }
{
    option_repeated(
        alloc,
        "document",
        "SET=SEGELEMENT",
        "Where a set has its document's number, as 850=BEG03, once for each set",
    )
}

fn run_asked<'a>(alloc: Global, matches: &ArgMatches<'a>) -> Result<Asked<'a>, TrackFailure<'a>>
    ensures given { IfOk result (IsGiven (found_of matches.now)) }
    ensures usage { IfErr result (λ failed. status_of failed ≡ 2
        → AreGiven (first_value (found_of matches.now)) (values_found (found_of matches.now)) → ⊥) }
    ensures err { IfErr result IsOfWords }
{
    let Some(setup) = matches.get_str("setup") else {
        return Err(not_taken(alloc, "--setup"));
    };
    let Some(guides) = matches.get_strs("guide") else {
        return Err(not_taken(alloc, "--guide"));
    };
    let Some(counters) = matches.get_str("counters") else {
        return Err(not_taken(alloc, "--counters"));
    };
    let Some(at) = moment_given(matches) else {
        return Err(not_taken(alloc, "--at"));
    };
    let Some(input) = matches.get_str("in") else {
        return Err(not_taken(alloc, "--in"));
    };
    let Some(output) = matches.get_str("track") else {
        return Err(not_taken(alloc, "--track"));
    };
    let Some(sharing) = sharing_given(matches) else {
        return Err(not_taken(alloc, "--workers, --piece"));
    };
    let Some(documents) = documents_given(alloc, matches.get_strs("document"))? else {
        return Err(not_taken(alloc, "--document"));
    };
    let guides = copied(alloc, guides)?;
    Ok(Asked::Run(Options {
        setup,
        guides,
        counters,
        at,
        input,
        output,
        documents,
        sharing,
    }))
}

/// That an option of this name has no value that can be taken.
fn not_taken<'a>(alloc: Global, option: &str) -> TrackFailure<'a>
    ensures { IsOfWords result }
{
    match copy_text(alloc, option.as_bytes()) {
        Ok(option) => TrackFailure::Usage(option),
        Err(_) => TrackFailure::Night(Failure::Memory),
    }
}
