ghost use Rattle.std.specs.Prelude.{◌≡◌, map, IfOk, IfErr};
ghost use Rattle.clap.specs.Words.{app_of, first_value, found_of};
ghost use Rattle.program_frame.specs.Mistake.{IsUsage};
ghost use Rattle.page_command.specs.CommandLine.{IsAsked, IsCommandLine, IsGiven, NamesNone, page_app};

use clap::{ArgMatches, Command};
use hub_kinds::copy_text;
use program_frame::{Matched, Mistake, match_words, option_free, program, word};
use std::alloc::{AllocError, Global};
use std::convert::AsStr;
use system_io::with_argument;

/// The name of the program.
pub const PROGRAM: &str = "nighthub_page";

/// What the text of `--help` ends with.
const STATUSES: &str = "Status:
  0  the page was printed
  1  no set was found that meets GUIDE
  2  usage
  3  GUIDE or FILE is refused, or can't be read
  5  standard output, or DIR: it must not exist
  6  no memory

Example:
  nighthub_page --names h850.names.toml --samples samples guides/h850.toml > h850.html";

/// The files that the arguments name.
#[derive(Clone, Copy, Debug)]
pub struct Paths<'a> {
    /// The guide file.
    pub guide: &'a str,
    /// The names file, if there is one.
    pub names: Option<&'a str>,
    /// The folder for samples, if there is one.
    pub samples: Option<&'a str>,
}

/// What the arguments ask for.
#[derive(Debug, Drop)]
pub enum Asked<'a> {
    /// To print the page of a guide, with words of a names file, and to put samples into a folder.
    Page(Paths<'a>),
    /// To show a text: help, or the version.
    Show(String),
}

/// Reads the program's arguments without its name.
pub fn read_words<'a, S: AsStr>(alloc: Global, words: &'a [S]) -> Result<Asked<'a>, Mistake>
    ensures asked { IfOk result (IsAsked (map S.text words.now)) }
    ensures usage { IfErr result (λ mistake. IsUsage mistake → IsCommandLine (map S.text words.now) → ⊥) }
{
    let command = command(alloc)?;
    match match_words(alloc, command, words)? {
        Matched::Values(values) => guide_given(alloc, &values),
        Matched::Text(text) => Ok(Asked::Show(text)),
    }
}

fn command<'a>(alloc: Global) -> Result<Command<'a>, AllocError>
    ensures { IfOk result (λ command. app_of command ≡ page_app) }
{
    let command = program(
        alloc,
        PROGRAM,
        "Prints a page for a browser on a guide",
        STATUSES,
    );
    let names = option_free(
        alloc,
        "names",
        "FILE",
        "Say the words of the names file FILE beside ids, numbers and codes",
    );
    let command = with_argument(command, names)?;
    let samples = option_free(
        alloc,
        "samples",
        "DIR",
        "Make the folder DIR, and put samples there",
    );
    let command = with_argument(command, samples)?;
    with_argument(command, word(alloc, "guide", "GUIDE", "The guide file"))
}

fn guide_given<'a>(alloc: Global, matches: &ArgMatches<'a>) -> Result<Asked<'a>, Mistake>
    ensures given { IfOk result (IsGiven (first_value (found_of matches.now))) }
    ensures usage { IfErr result (λ mistake. IsUsage mistake → NamesNone (first_value (found_of matches.now))) }
{
    let Some(path) = matches.get_str("guide") else {
        return Err(Mistake::Usage(copy_text(alloc, b"GUIDE is missing")?));
    };
    Ok(Asked::Page(Paths {
        guide: path,
        names: matches.get_str("names"),
        samples: matches.get_str("samples"),
    }))
}
