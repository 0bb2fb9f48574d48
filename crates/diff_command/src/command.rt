ghost use Rattle.std.specs.Prelude.{◌≡◌, map, IfOk, IfErr};
ghost use Rattle.clap.specs.Words.{app_of, first_value, found_of};
ghost use Rattle.program_frame.specs.Mistake.{IsUsage};
ghost use Rattle.diff_command.specs.CommandLine.{IsAsked, IsCommandLine, IsGiven, NamesTooFew, diff_app};

use clap::{ArgMatches, Command};
use hub_kinds::copy_text;
use program_frame::{Matched, Mistake, match_words, option_free, program, word};
use std::alloc::{AllocError, Global};
use std::convert::AsStr;
use system_io::with_argument;

/// The name of the program.
pub const PROGRAM: &str = "nighthub_diff";

/// What the text of `--help` ends with.
const STATUSES: &str = "Status:
  0  each set that meets OLD meets NEW: each line is wider
  1  a line is narrower or other
  2  usage
  3  a guide is refused, or can't be read
  5  standard output, or DIR: it must not exist
  6  no memory

Example:
  nighthub_diff --samples refused guides/h850.toml h850.toml";

/// The files that the arguments name.
#[derive(Clone, Copy, Debug)]
pub struct Paths<'a> {
    /// The old guide file.
    pub old: &'a str,
    /// The new guide file.
    pub new: &'a str,
    /// The folder for samples, if there is one.
    pub samples: Option<&'a str>,
}

/// What the arguments ask for.
#[derive(Debug, Drop)]
pub enum Asked<'a> {
    /// To compare two guides, and to put samples of their differences into a folder.
    Compare(Paths<'a>),
    /// To show a text: help, or the version.
    Show(String),
}

/// Reads the program's arguments without its name.
pub fn read_words<'a, S: AsStr>(alloc: Global, words: &'a [S]) -> Result<Asked<'a>, Mistake>
    ensures asked { IfOk result (IsAsked (map S.text words.now)) }
    ensures usage { IfErr result (λ mistake. IsUsage mistake → IsCommandLine (map S.text words.now) → ⊥) }
{
    let command = command(alloc)?;
    match match_words(alloc, command, words)? {
        Matched::Values(values) => paths_given(alloc, &values),
        Matched::Text(text) => Ok(Asked::Show(text)),
    }
}

fn command<'a>(alloc: Global) -> Result<Command<'a>, AllocError>
    ensures { IfOk result (λ command. app_of command ≡ diff_app) }
{
    let command = program(
        alloc,
        PROGRAM,
        "Compares two guides, and says what the new one may refuse that the old one takes",
        STATUSES,
    );
    let samples = option_free(
        alloc,
        "samples",
        "DIR",
        "Make the folder DIR, and put sets there that OLD takes and NEW refuses",
    );
    let command = with_argument(command, samples)?;
    let old = word(alloc, "old", "OLD", "The guide as it was");
    let command = with_argument(command, old)?;
    with_argument(command, word(alloc, "new", "NEW", "The changed guide"))
}

fn paths_given<'a>(alloc: Global, matches: &ArgMatches<'a>) -> Result<Asked<'a>, Mistake>
    ensures given { IfOk result (IsGiven (first_value (found_of matches.now))) }
    ensures usage { IfErr result (λ mistake. IsUsage mistake → NamesTooFew (first_value (found_of matches.now))) }
{
    let Some(old) = matches.get_str("old") else {
        return Err(Mistake::Usage(copy_text(alloc, b"OLD is missing")?));
    };
    let Some(new) = matches.get_str("new") else {
        return Err(Mistake::Usage(copy_text(alloc, b"NEW is missing")?));
    };
    Ok(Asked::Compare(Paths {
        old,
        new,
        samples: matches.get_str("samples"),
    }))
}
