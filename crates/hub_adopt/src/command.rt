ghost use Rattle.std.specs.Prelude.{◌≡◌, ℕ, Option, None, map, IfOk, IfErr};
ghost use Rattle.clap.specs.Words.{app_of, first_value, found_of};
ghost use Rattle.program_frame.specs.Mistake.{IsUsage};
ghost use Rattle.hub_adopt.specs.Asked as asked;
ghost use Rattle.hub_adopt.specs.CommandLine as line;

use crate::help::{STATUSES, USAGE};
use clap::{ArgMatches, Command};
use hub_folder::is_path;
use hub_kinds::copy_text;
use night_command::{Sharing, piece_option, sharing_given, workers_option};
use program_frame::{Matched, Mistake, match_words, program, word};
use std::alloc::{AllocError, Global};
use std::convert::AsStr;
use system_io::with_argument;

/// The name of the program.
pub(crate) const PROGRAM: &str = "nighthub_day";

/// Whether the first word is `adopt`.
pub fn begins_adopt<S: AsStr>(words: &[S]) -> bool
    ensures { result ≡ line.begins_adopt (map S.text words.now) }
{
    match words.first() {
        None => false,
        Some(word) => word.as_str() == "adopt",
    }
}

/// Old nights that are to become nights of a hub.
#[derive(Drop)]
pub struct Options<'a> {
    /// The path of the hub's folder.
    pub hub: &'a str,
    /// The path of the folder of the old nights.
    pub nights: &'a str,
    /// How the work of a night is shared.
    pub sharing: Sharing,
}

/// What the arguments ask for.
#[derive(Drop)]
pub enum Asked<'a> {
    /// To adopt old nights.
    Adopt(Options<'a>),
    /// To show a text: help, or the version.
    Show(String),
}

/// Reads the program's arguments without its name.
pub fn read_words<'a, S: AsStr>(alloc: Global, words: &'a [S]) -> Result<Asked<'a>, Mistake>
    ensures asked { IfOk result (asked.IsAsked (map S.text words.now)) }
    ensures usage { IfErr result (λ mistake. IsUsage mistake → line.IsCommandLine (map S.text words.now) → ⊥) }
{
    let command = command(alloc)?;
    match match_words(alloc, command, words)? {
        Matched::Values(values) => options_given(alloc, &values),
        Matched::Text(text) => Ok(Asked::Show(text)),
    }
}

fn command<'a>(alloc: Global) -> Result<Command<'a>, AllocError>
    ensures { IfOk result (λ command. app_of command ≡ line.adopt_app) }
{
    let command = words_command(alloc)?;
    let workers = workers_option(
        alloc,
        "How many workers share a night, 1 to 64 [default: 4]",
    );
    let command = with_argument(command, workers)?;
    let piece = piece_option(
        alloc,
        "How many bytes of an input a worker takes at a time [default: 1048576]",
    );
    with_argument(command, piece)
}

/// The program with the words by their places.
fn words_command<'a>(alloc: Global) -> Result<Command<'a>, AllocError>
    ensures { IfOk result (λ command. app_of command ≡ line.words_app) }
{
    let command = program(
        alloc,
        PROGRAM,
        "Makes the nights of the script run_night the first nights of a hub",
        STATUSES,
    );
    let command = with_argument(command, word(alloc, "command", "COMMAND", "adopt"))?;
    let hub = word(alloc, "hub", "HUB", "The folder of the hub");
    let command = with_argument(command, hub)?;
    let nights = word(alloc, "nights", "NIGHTS", "The folder of the old nights");
    with_argument(command, nights)
}

fn request_by<'a>(
    command: &str,
    hub: &'a str,
    nights: &'a str,
    sharing: Option<Sharing>,
) -> Option<Options<'a>>
    ensures { (workers piece : Option ℕ) → asked.AreShared workers piece sharing
        → asked.requested result ≡ line.request_by command.now hub.entry.now nights.entry.now workers piece }
{
    let sharing = sharing?;
    if command == "adopt" && (is_path(hub) && is_path(nights)) {
        Some(Options {
            hub,
            nights,
            sharing,
        })
    } else {
        None
    }
}

/// The request that the values make.
fn request_found<'a>(matches: &ArgMatches<'a>) -> Option<Options<'a>>
    ensures { asked.requested result ≡ line.request_of (first_value (found_of matches.now)) }
{
    let Some(command) = matches.get_str("command") else {
        return None;
    };
    let Some(hub) = matches.get_str("hub") else {
        return None;
    };
    let Some(nights) = matches.get_str("nights") else {
        return None;
    };
    request_by(command, hub, nights, sharing_given(matches))
}

fn options_given<'a>(alloc: Global, matches: &ArgMatches<'a>) -> Result<Asked<'a>, Mistake>
    ensures given { IfOk result (asked.IsRequest (line.request_of (first_value (found_of matches.now)))) }
    ensures usage { IfErr result (λ mistake. IsUsage mistake → line.request_of (first_value (found_of matches.now)) ≡ None) }
{
    match request_found(matches) {
        Some(options) => Ok(Asked::Adopt(options)),
        None => Err(Mistake::Usage(copy_text(alloc, USAGE)?)),
    }
}
