ghost use Rattle.std.specs.Prelude.{◌≡◌, map, IfOk, IfErr};
ghost use Rattle.clap.specs.Words.{app_of, first_value, found_of};
ghost use Rattle.system_io.specs.Words.{values_found};
ghost use Rattle.program_frame.specs.Mistake.{IsUsage};
ghost use Rattle.explain_command.specs.CommandLine.{IsAsked, IsCommandLine, IsGiven, NamesNone, explain_app};

use clap::{ArgMatches, Command};
use hub_kinds::copy_text;
use program_frame::{Matched, Mistake, match_words, option_free, program, words};
use std::alloc::{AllocError, Global};
use std::convert::AsStr;
use system_io::{texts_given, with_argument};

/// The name of the program.
pub const PROGRAM: &str = "nighthub_explain";

/// What the text of `--help` ends with.
const STATUSES: &str = "Status:
  0  the acknowledgments are explained
  2  usage
  3  FILE is refused, or can't be read
  4  a file can't be read, holds no acknowledgments, or is truncated
  5  standard output
  6  no memory

Example:
  nighthub_explain --names h850.names.toml out/ACME.ack";

/// The files that the arguments name.
#[derive(Debug, Drop)]
pub struct Paths<'a> {
    /// The names file, if there is one.
    pub names: Option<&'a str>,
    /// The files of acknowledgments, in their order; there is one or more.
    pub files: Vec<&'a str>,
}

/// What the arguments ask for.
#[derive(Debug, Drop)]
pub enum Asked<'a> {
    /// To explain the acknowledgments in these files.
    Explain(Paths<'a>),
    /// To show a text: help, or the version.
    Show(String),
}

/// Reads the program's arguments without its name.
pub fn read_words<'a, S: AsStr>(alloc: Global, words: &'a [S]) -> Result<Asked<'a>, Mistake>
    ensures asked { IfOk result (IsAsked (map S.text words.now)) }
    ensures usage { IfErr result (λ mistake. IsUsage mistake → IsCommandLine (map S.text words.now) → ⊥) }
{
    let command = command(alloc)?;
    match match_words(alloc, command, words)? {
        Matched::Values(values) => files_asked(alloc, &values),
        Matched::Text(text) => Ok(Asked::Show(text)),
    }
}

fn command<'a>(alloc: Global) -> Result<Command<'a>, AllocError>
    ensures { IfOk result (λ command. app_of command ≡ explain_app) }
{
    let command = program(
        alloc,
        PROGRAM,
        "Says in words what a partner's acknowledgments tell",
        STATUSES,
    );
    let names = option_free(
        alloc,
        "names",
        "FILE",
        "Say the names of segments and elements that the names file FILE has",
    );
    let command = with_argument(command, names)?;
    let file = words(
        alloc,
        "file",
        "NAME.ack",
        "A partner's acknowledgments, as nighthub writes them; of several files each line has its file's name in front",
    );
    with_argument(command, file)
}

fn files_asked<'a>(alloc: Global, matches: &ArgMatches<'a>) -> Result<Asked<'a>, Mistake>
    ensures given { IfOk result (IsGiven (values_found (found_of matches.now)) (first_value (found_of matches.now))) }
    ensures usage { IfErr result (λ mistake. IsUsage mistake → NamesNone (values_found (found_of matches.now))) }
{
    let files = texts_given(alloc, matches, "file")?;
    if files.is_empty() {
        return Err(Mistake::Usage(copy_text(alloc, b"no file is named")?));
    }
    Ok(Asked::Explain(Paths {
        names: matches.get_str("names"),
        files,
    }))
}
