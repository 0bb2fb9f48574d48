ghost use Rattle.std.specs.Prelude.{◌≡◌, map, IfOk, IfErr, IsErrOf};
ghost use Rattle.clap.specs.Words.{app_of, first_value, found_of};
ghost use Rattle.program_frame.specs.Mistake.{IsUsage};
ghost use Rattle.night_command.specs.CommandLine.{AreGiven, IsAsked, IsCommandLine, IsGiven, hub_app, night_app};
ghost use Rattle.night_command.specs.Failure.{IsOfWords};
ghost use Rattle.system_io.specs.Words.{values_found};

use crate::failure::Failure;
use crate::options::{moment_given, option_wanted, with_night};
use crate::sharing::{Sharing, piece_option, sharing_given, workers_option};
use clap::{ArgMatches, Command};
use moment::At;
use program_frame::{Matched, Mistake, match_words, program};
use std::alloc::{AllocError, Global};
use std::convert::AsStr;
use system_io::{copied, with_argument};

/// What comes after the options in the text of `--help`.
const FILES_AND_STATUSES: &str =
    "Files of DIR: NAME.ack and NAME.box for each partner, report.txt, counters.toml.

Status:
  0  a clean night
  1  a whole night; see its report
  2  usage
  3  a guide, the setup or the counters
  4  the input
  5  an output
  6  no memory, or no thread

Example:
  nighthub --setup setup.toml --guide h850.toml --guide h856.toml
      --counters counters.toml --in in.x12 --at 202603011530 --out out";

/// The files and the moment of a night, and how it is shared. Each file is named by its path.
#[derive(Debug, Drop)]
pub struct Options<'a> {
    /// The setup.
    pub setup: &'a str,
    /// The guides, in the order in which they are given.
    pub guides: Vec<&'a str>,
    /// The counters of the night before.
    pub counters: &'a str,
    /// The day and time that the night bears.
    pub at: At,
    /// What came in.
    pub input: &'a str,
    /// The folder for what goes out.
    pub output: &'a str,
    /// How it is shared.
    pub sharing: Sharing,
}

/// What the arguments ask for.
#[derive(Debug, Drop)]
pub enum Asked<'a> {
    /// To run a night.
    Run(Options<'a>),
    /// To show a text: help, or the version.
    Show(String),
}

/// Reads the program's arguments without its name.
pub fn read_words<'a, S: AsStr>(alloc: Global, words: &'a [S]) -> Result<Asked<'a>, Failure<'a>>
    ensures asked { IfOk result (IsAsked (map S.text words.now)) }
    ensures usage { IsErrOf result Failure.Usage → IsCommandLine (map S.text words.now) → ⊥ }
    ensures err { IfErr result IsOfWords }
{
    let command = command(alloc)?;
    match match_words(alloc, command, words) {
        Ok(Matched::Values(values)) => run_asked(alloc, &values),
        Ok(Matched::Text(text)) => Ok(Asked::Show(text)),
        Err(mistake) => Err(of_mistake(&mistake)),
    }
}

fn command<'a>(alloc: Global) -> Result<Command<'a>, AllocError>
    ensures { IfOk result (λ command. app_of command ≡ hub_app) }
{
    let command = night_command(alloc)?;
    let workers = workers_option(
        alloc,
        "How many workers share the night, 1 to 64 [default: 4]",
    );
    let command = with_argument(command, workers)?;
    let piece = piece_option(
        alloc,
        "How many bytes of the input a worker takes at a time [default: 1048576]",
    );
    with_argument(command, piece)
}

/// The command with the options that name a night.
fn night_command<'a>(alloc: Global) -> Result<Command<'a>, AllocError>
    ensures { IfOk result (λ command. app_of command ≡ night_app) }
{
    let command = program(
        alloc,
        "nighthub",
        "Acknowledges the X12 interchanges of a night and delivers their sets",
        FILES_AND_STATUSES,
    );
    let command = with_night(alloc, command)?;
    let output = option_wanted(
        alloc,
        "out",
        "DIR",
        "The folder, which exists, for the files that are written",
    );
    with_argument(command, output)
}

fn run_asked<'a>(alloc: Global, matches: &ArgMatches<'a>) -> Result<Asked<'a>, Failure<'a>>
    ensures given { IfOk result (IsGiven (found_of matches.now)) }
    ensures usage { IsErrOf result Failure.Usage
        → AreGiven (first_value (found_of matches.now)) (values_found (found_of matches.now)) → ⊥ }
    ensures err { IfErr result IsOfWords }
{
    let Some(setup) = matches.get_str("setup") else {
        return Err(Failure::Usage);
    };
    let Some(guides) = matches.get_strs("guide") else {
        return Err(Failure::Usage);
    };
    let Some(counters) = matches.get_str("counters") else {
        return Err(Failure::Usage);
    };
    let Some(at) = moment_given(matches) else {
        return Err(Failure::Usage);
    };
    let Some(input) = matches.get_str("in") else {
        return Err(Failure::Usage);
    };
    let Some(output) = matches.get_str("out") else {
        return Err(Failure::Usage);
    };
    let Some(sharing) = sharing_given(matches) else {
        return Err(Failure::Usage);
    };
    let guides = copied(alloc, guides)?;
    Ok(Asked::Run(Options {
        setup,
        guides,
        counters,
        at,
        input,
        output,
        sharing,
    }))
}

/// The failure that a mistake in the arguments is.
fn of_mistake<'a>(mistake: &Mistake) -> Failure<'a>
    ensures usage { result ≡ Failure.Usage → IsUsage mistake.now }
    ensures words { IsOfWords result }
{
    match mistake {
        Mistake::Usage(_) => Failure::Usage,
        Mistake::Memory => Failure::Memory,
    }
}
