ghost use Rattle.std.specs.Prelude.{◌≡◌, ◌≤◌, ℕ, Option, None, map, option_map, IfErr, IfOk, IfSome};
ghost use Rattle.clap.specs.Words.{app_of, first_value, found_of};
ghost use Rattle.program_frame.specs.Mistake.{IsUsage};
ghost use Rattle.hub_archive.specs.Asked as asked;
ghost use Rattle.hub_archive.specs.CommandLine as line;

use crate::help::{STATUSES, USAGE};
use clap::{ArgMatches, Command};
use hub_folder::is_path;
use hub_kinds::{copy_text, read_number};
use program_frame::{Matched, Mistake, match_words, option_free, program, word};
use std::alloc::{AllocError, Global};
use std::convert::AsStr;
use system_io::with_argument;

/// The name of the program.
pub(crate) const PROGRAM: &str = "nighthub_day";

/// How many digits the number of nights has at most.
const DIGITS: usize = 6;

/// Whether the first word is `archive`.
pub fn begins_archive<S: AsStr>(words: &[S]) -> bool
    ensures { result ≡ line.begins_archive (map S.text words.now) }
{
    match words.first() {
        None => false,
        Some(word) => word.as_str() == "archive",
    }
}

/// Nights that are to be archived.
#[derive(Clone, Copy)]
pub struct Options<'a> {
    /// The path of the hub's folder.
    pub hub: &'a str,
    /// How many of the last nights are not archived.
    pub keep: u32,
}

/// What the arguments ask for.
#[derive(Drop)]
pub enum Asked<'a> {
    /// To archive nights.
    Archive(Options<'a>),
    /// To show a text: help, or the version.
    Show(String),
}

/// Reads the program's arguments without its name.
pub fn read_words<'a, S: AsStr>(alloc: Global, words: &'a [S]) -> Result<Asked<'a>, Mistake>
    ensures asked { IfOk result (asked.IsAsked (map S.text words.now)) }
    ensures usage { IfErr result (λ mistake. IsUsage mistake → line.IsCommandLine (map S.text words.now) → ⊥) }
{
    let command = command(alloc)?;
    match match_words(alloc, command, words)? {
        Matched::Values(values) => options_given(alloc, &values),
        Matched::Text(text) => Ok(Asked::Show(text)),
    }
}

fn command<'a>(alloc: Global) -> Result<Command<'a>, AllocError>
    ensures { IfOk result (λ command. app_of command ≡ line.archive_app) }
{
    let command = program(
        alloc,
        PROGRAM,
        "Archives all nights of a hub but the last ones",
        STATUSES,
    );
    let command = with_argument(command, word(alloc, "command", "COMMAND", "archive"))?;
    let hub = word(alloc, "hub", "HUB", "The folder of the hub");
    let command = with_argument(command, hub)?;
    let keep = option_free(alloc, "keep", "N", "How many nights are left as they are");
    with_argument(command, keep)
}

/// The number that `text` says, if it is one from 1 to 999,999.
fn count_in(text: &str) -> Option<u32>
    ensures value { result ≡ line.count_in text.now }
    ensures few { IfSome result (λ n. n ≤ 999999) }
{
    match read_number(text.as_bytes(), DIGITS) {
        Some(n) if 1 <= n && n <= 999_999 => Some(n as u32),
        Some(_) | None => None,
    }
}

fn request_by<'a>(command: &str, hub: &'a str, keep: Option<&str>) -> Option<Options<'a>>
    ensures { asked.requested result ≡ line.request_by command.now hub.entry.now (option_map (λ k. k.now) keep.entry) }
{
    let keep = count_in(keep?)?;
    if command == "archive" && is_path(hub) {
        Some(Options { hub, keep })
    } else {
        None
    }
}

/// The request that the values make.
fn request_found<'a>(matches: &ArgMatches<'a>) -> Option<Options<'a>>
    ensures { asked.requested result ≡ line.request_of (first_value (found_of matches.now)) }
{
    let Some(command) = matches.get_str("command") else {
        return None;
    };
    let Some(hub) = matches.get_str("hub") else {
        return None;
    };
    request_by(command, hub, matches.get_str("keep"))
}

fn options_given<'a>(alloc: Global, matches: &ArgMatches<'a>) -> Result<Asked<'a>, Mistake>
    ensures given { IfOk result (asked.IsRequest (line.request_of (first_value (found_of matches.now)))) }
    ensures usage { IfErr result (λ mistake. IsUsage mistake → line.request_of (first_value (found_of matches.now)) ≡ None) }
{
    match request_found(matches) {
        Some(options) => Ok(Asked::Archive(options)),
        None => Err(Mistake::Usage(copy_text(alloc, USAGE)?)),
    }
}
