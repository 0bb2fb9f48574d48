ghost use Rattle.std.specs.Prelude.{◌≡◌, map, IfOk, IfErr};
ghost use Rattle.clap.specs.Words.{app_of, first_value, found_of};
ghost use Rattle.system_io.specs.Words.{values_found};
ghost use Rattle.program_frame.specs.Mistake.{IsUsage};
ghost use Rattle.gather_command.specs.CommandLine.{IsAsked, IsCommandLine, IsGiven, NamesNone, gather_app};

use clap::{ArgMatches, Command};
use hub_kinds::copy_text;
use program_frame::{Matched, Mistake, match_words, program, word, words};
use std::alloc::{AllocError, Global};
use std::convert::AsStr;
use system_io::{texts_given, with_argument};

/// The name of the program.
pub const PROGRAM: &str = "nighthub_gather";

/// What the text of `--help` ends with.
const STATUSES: &str = "Status:
  0  each file is taken, and is whole
  1  a file is truncated or set aside
  2  usage
  4  a file can't be read, or is too long
  5  OUT or standard output can't be written, or OUT is there already
  6  no memory

Example:
  nighthub_gather day.x12 in/*.x12";

/// Which files are gathered, and into which.
#[derive(Debug, Drop)]
pub struct Job<'a> {
    /// The file that is made.
    pub out: &'a str,
    /// The files that are gathered, in their order.
    pub files: Vec<&'a str>,
}

/// What the arguments ask for.
#[derive(Debug, Drop)]
pub enum Asked<'a> {
    /// To gather files.
    Gather(Job<'a>),
    /// To show a text: help, or the version.
    Show(String),
}

/// Reads the arguments, without the program's name.
pub fn read_words<'a, S: AsStr>(alloc: Global, words: &'a [S]) -> Result<Asked<'a>, Mistake>
    ensures asked { IfOk result (IsAsked (map S.text words.now)) }
    ensures usage { IfErr result (λ mistake. IsUsage mistake → IsCommandLine (map S.text words.now) → ⊥) }
{
    let command = command(alloc)?;
    match match_words(alloc, command, words)? {
        Matched::Values(values) => job_given(alloc, &values),
        Matched::Text(text) => Ok(Asked::Show(text)),
    }
}

fn command<'a>(alloc: Global) -> Result<Command<'a>, AllocError>
    ensures { IfOk result (λ command. app_of command ≡ gather_app) }
{
    let command = program(
        alloc,
        PROGRAM,
        "Puts the files of a day one after another, so that none touches its neighbour",
        STATUSES,
    );
    let out = word(
        alloc,
        "out",
        "OUT",
        "The file that is made; it must not be there",
    );
    let command = with_argument(command, out)?;
    let files = words(alloc, "file", "FILE", "The files of a day, in their order");
    with_argument(command, files)
}

fn job_given<'a>(alloc: Global, matches: &ArgMatches<'a>) -> Result<Asked<'a>, Mistake>
    ensures given { IfOk result (IsGiven (first_value (found_of matches.now)) (values_found (found_of matches.now))) }
    ensures usage { IfErr result (λ mistake. IsUsage mistake → NamesNone (first_value (found_of matches.now))) }
{
    let Some(out) = matches.get_str("out") else {
        return Err(Mistake::Usage(copy_text(alloc, b"OUT is missing")?));
    };
    let files = texts_given(alloc, matches, "file")?;
    Ok(Asked::Gather(Job { out, files }))
}
