ghost use Rattle.std.specs.Prelude.{◌≡◌, map, option_map, IfOk, IfErr};
ghost use Rattle.clap.specs.Words.{app_of, first_value, found_of};
ghost use Rattle.system_io.specs.Words.{values_found};
ghost use Rattle.program_frame.specs.Mistake.{IsUsage};
ghost use Rattle.check_command.specs.CommandLine.{AreNone, IsAsked, IsCommandLine, IsGiven, check_app, files_app, is_all};

use clap::{ArgMatches, Command};
use hub_kinds::copy_text;
use program_frame::{
    Matched, Mistake, match_words, option_flag, option_free, option_repeated, program,
};
use std::alloc::{AllocError, Global};
use std::convert::AsStr;
use system_io::{texts_given, with_argument};

/// The name of the program.
pub const PROGRAM: &str = "nighthub_check";

/// What the text of `--help` ends with.
const STATUSES: &str = "Status:
  0  each file is taken
  2  usage
  3  a file is refused, or can't be read
  5  standard output
  6  no memory

Example:
  nighthub_check --setup setup.toml --guide h850.toml --counters counters.toml";

/// The files that are checked, each named by its path.
#[derive(Debug, Drop)]
pub struct Options<'a> {
    /// The setup, where it is given.
    pub setup: Option<&'a str>,
    /// The guides, in the order in which they are given.
    pub guides: Vec<&'a str>,
    /// The counters, where they are given.
    pub counters: Option<&'a str>,
    /// Whether a check continues after a file's first refusal.
    pub all: bool,
}

impl<'a> Options<'a> {
    ghost use Rattle.std.specs.Prelude.{◌≡◌};
    ghost use Rattle.check_command.specs.CommandLine.{names_none};

    /// Whether no file is named.
    fn names_none(&self) -> bool
        ensures { result ≡ names_none self.now }
    {
        self.setup.is_none() && self.counters.is_none() && self.guides.len() == 0
    }
}

/// What the arguments ask for.
#[derive(Debug, Drop)]
pub enum Asked<'a> {
    /// To check files.
    Check(Options<'a>),
    /// To show a text: help, or the version.
    Show(String),
}

/// Reads the program's arguments without its name. Arguments that name no file are no command line.
pub fn read_words<'a, S: AsStr>(alloc: Global, words: &'a [S]) -> Result<Asked<'a>, Mistake>
    ensures asked { IfOk result (IsAsked (map S.text words.now)) }
    ensures usage { IfErr result (λ mistake. IsUsage mistake → IsCommandLine (map S.text words.now) → ⊥) }
{
    let command = command(alloc)?;
    match match_words(alloc, command, words)? {
        Matched::Values(values) => options_given(alloc, &values),
        Matched::Text(text) => Ok(Asked::Show(text)),
    }
}

fn command<'a>(alloc: Global) -> Result<Command<'a>, AllocError>
    ensures { IfOk result (λ command. app_of command ≡ check_app) }
{
    let command = files_command(alloc)?;
    let all = option_flag(
        alloc,
        "all",
        "Says all that is wrong with each table, row and node by itself",
    );
    with_argument(command, all)
}

/// The program with the options that name files.
fn files_command<'a>(alloc: Global) -> Result<Command<'a>, AllocError>
    ensures { IfOk result (λ command. app_of command ≡ files_app) }
{
    let command = program(
        alloc,
        PROGRAM,
        "Says what is wrong with the files of a setup",
        STATUSES,
    );
    let setup = option_free(alloc, "setup", "FILE", "The partners and routes");
    let command = with_argument(command, setup)?;
    let guide = option_repeated(alloc, "guide", "FILE", "A guide, given once for each");
    let command = with_argument(command, guide)?;
    let counters = option_free(alloc, "counters", "FILE", "The numbers to go on from");
    with_argument(command, counters)
}

fn options_given<'a>(alloc: Global, matches: &ArgMatches<'a>) -> Result<Asked<'a>, Mistake>
    ensures given { IfOk result (IsGiven (first_value (found_of matches.now)) (values_found (found_of matches.now))) }
    ensures usage { IfErr result (λ mistake. IsUsage mistake
        → AreNone (first_value (found_of matches.now)) (values_found (found_of matches.now))) }
{
    let options = Options {
        setup: matches.get_str("setup"),
        guides: texts_given(alloc, matches, "guide")?,
        counters: matches.get_str("counters"),
        all: is_all(matches.get_str("all")),
    };
    if options.names_none() {
        return Err(Mistake::Usage(copy_text(alloc, b"no file is named")?));
    }
    Ok(Asked::Check(options))
}

/// Whether the value of the option is that of one that is given.
fn is_all(value: Option<&str>) -> bool
    ensures { result ≡ is_all (option_map (λ v. v.now) value.entry) }
{
    match value {
        None => false,
        Some(text) => text.as_bytes() == b"true".as_slice(),
    }
}
