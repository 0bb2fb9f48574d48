ghost use Rattle.std.specs.Prelude.{◌≡◌, map, IfOk, IfErr};
ghost use Rattle.clap.specs.Words.{app_of, first_value, found_of};
ghost use Rattle.system_io.specs.Words.{values_found};
ghost use Rattle.program_frame.specs.Mistake.{IsUsage};
ghost use Rattle.learn_command.specs.CommandLine.{IsAsked, IsCommandLine, IsGiven, NamesNone, learn_app};

use clap::{ArgMatches, Command};
use hub_kinds::copy_text;
use program_frame::{Matched, Mistake, match_words, option_free, option_repeated, program, words};
use std::alloc::{AllocError, Global};
use std::convert::AsStr;
use system_io::{texts_given, with_argument};

/// The name of the program.
pub const PROGRAM: &str = "nighthub_learn";

/// What the text of `--help` ends with.
const STATUSES: &str = "Status:
  0  the guide was printed: each set meets it
  1  no guide was learned
  2  usage
  3  a guide that is known is refused, or can't be read
  4  a sample file can't be read, or has no interchange
  5  standard output
  6  no memory

Example:
  nighthub_learn --known guides/h856.toml --set 856 samples/*.x12 > acme856.toml";

/// What a guide is learned from.
#[derive(Debug, Drop)]
pub struct Options<'a> {
    /// The paths of guides that are known.
    pub known: Vec<&'a str>,
    /// The ST01 of the sets that are asked for; without it all sets are.
    pub st01: Option<&'a str>,
    /// The paths of sample files, in their order; there is one or more.
    pub files: Vec<&'a str>,
}

/// What the arguments ask for.
#[derive(Debug, Drop)]
pub enum Asked<'a> {
    /// To learn a guide.
    Learn(Options<'a>),
    /// To show a text: help, or the version.
    Show(String),
}

/// Reads the program's arguments without its name.
pub fn read_words<'a, S: AsStr>(alloc: Global, words: &'a [S]) -> Result<Asked<'a>, Mistake>
    ensures asked { IfOk result (IsAsked (map S.text words.now)) }
    ensures usage { IfErr result (λ mistake. IsUsage mistake → IsCommandLine (map S.text words.now) → ⊥) }
{
    let command = command(alloc)?;
    match match_words(alloc, command, words)? {
        Matched::Values(values) => options_given(alloc, &values),
        Matched::Text(text) => Ok(Asked::Show(text)),
    }
}

fn command<'a>(alloc: Global) -> Result<Command<'a>, AllocError>
    ensures { IfOk result (λ command. app_of command ≡ learn_app) }
{
    let command = program(
        alloc,
        PROGRAM,
        "Writes a guide that each set of sample files meets",
        STATUSES,
    );
    let known = option_repeated(
        alloc,
        "known",
        "GUIDE",
        "A guide file from which types and lengths of elements are taken; it can be given again",
    );
    let command = with_argument(command, known)?;
    let set = option_free(
        alloc,
        "set",
        "ST01",
        "Learn from the sets with this ST01 alone",
    );
    let command = with_argument(command, set)?;
    let file = words(
        alloc,
        "file",
        "FILE",
        "Sample files: interchanges whose sets the guide is to take",
    );
    with_argument(command, file)
}

fn options_given<'a>(alloc: Global, matches: &ArgMatches<'a>) -> Result<Asked<'a>, Mistake>
    ensures given { IfOk result (IsGiven (first_value (found_of matches.now)) (values_found (found_of matches.now))) }
    ensures usage { IfErr result (λ mistake. IsUsage mistake → NamesNone (values_found (found_of matches.now))) }
{
    let files = texts_given(alloc, matches, "file")?;
    if files.is_empty() {
        return Err(Mistake::Usage(copy_text(alloc, b"no file is named")?));
    }
    Ok(Asked::Learn(Options {
        known: texts_given(alloc, matches, "known")?,
        st01: matches.get_str("set"),
        files,
    }))
}
