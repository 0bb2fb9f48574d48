ghost use Rattle.std.specs.Prelude.{◌≡◌, ◌&&◌, ℕ, Option, None, codes, false, true, not, map, option_map, IfOk, IfErr};
ghost use Rattle.clap.specs.Words.{app_of, first_value, found_of, rule_of};
ghost use Rattle.system_io.specs.Words.{or_none, values_found};
ghost use Rattle.program_frame.specs.Mistake.{IsUsage};
ghost use Rattle.hub_command.specs.Asked.{ArePaths, AreShared, IsAsked, IsGiven, IsRequest, IsRequested, text_of};
ghost use Rattle.hub_command.specs.CommandLine as line;

use crate::help::{STATUSES, USAGE};
use clap::{Arg, ArgMatches, Command};
use hub_folder::{is_night_name, is_path};
use hub_kinds::copy_text;
use moment::At;
use night_command::{Sharing, piece_option, sharing_given, workers_option};
use program_frame::{
    Matched, Mistake, match_words, option_flag, option_free, option_repeated, program, word, words,
};
use std::alloc::{AllocError, Global};
use std::convert::AsStr;
use system_io::{texts_given, with_argument};

/// The name of the program.
pub(crate) const PROGRAM: &str = "nighthub_day";

/// Whether the first word is a command of a hub.
pub fn is_of_hub<S: AsStr>(words: &[S]) -> bool
    ensures { result ≡ line.is_of_hub (map S.text words.now) }
{
    match words.first() {
        None => false,
        Some(word) => {
            let command = word.as_str();
            command == "init" || (command == "run" || command == "give-up")
        }
    }
}

/// A night that is to be run.
#[derive(Drop)]
pub struct Options<'a> {
    /// The paths of the files that came in.
    pub files: Vec<&'a str>,
    /// The paths of those that are asked for again.
    pub again: Vec<&'a str>,
    /// The date and time that everything of the night bears.
    pub at: At,
    /// What the night is called, if the arguments say it.
    pub name: Option<&'a str>,
    /// How many workers share it.
    pub sharing: Sharing,
}

/// What the arguments ask for, of the hub in the folder at a path.
#[derive(Drop)]
pub enum Asked<'a> {
    /// To make the folder a hub.
    Init(&'a str),
    /// To run a night of the hub.
    Run(&'a str, Options<'a>),
    /// To give up what is under way; or the last night, if nothing of it was sent.
    GiveUp(&'a str, bool),
    /// To show a text: help, or the version.
    Show(String),
}

/// Reads the program's arguments without its name.
pub fn read_words<'a, S: AsStr>(alloc: Global, words: &'a [S]) -> Result<Asked<'a>, Mistake>
    ensures asked { IfOk result (IsAsked (map S.text words.now)) }
    ensures usage { IfErr result (λ mistake. IsUsage mistake → line.IsCommandLine (map S.text words.now) → ⊥) }
{
    let command = command(alloc)?;
    match match_words(alloc, command, words)? {
        Matched::Values(values) => request_asked(alloc, &values),
        Matched::Text(text) => Ok(Asked::Show(text)),
    }
}

fn command<'a>(alloc: Global) -> Result<Command<'a>, AllocError>
    ensures { IfOk result (λ command. app_of command ≡ line.hub_app) }
{
    let command = with_night(alloc, words_command(alloc)?)?;
    let workers = workers_option(
        alloc,
        "run: how many workers share the night, 1 to 64 [default: 4]",
    );
    let command = with_argument(command, workers)?;
    let piece = piece_option(
        alloc,
        "run: how many bytes of the input a worker takes at a time [default: 1048576]",
    );
    let command = with_argument(command, piece)?;
    let not_sent = option_flag(
        alloc,
        "not-sent",
        "give-up: the last night, of which nothing was sent",
    );
    with_argument(command, not_sent)
}

/// The command with the options that say of a night when it is, what it is called and which files are asked for again.
fn with_night<'a>(alloc: Global, command: Command<'a>) -> Result<Command<'a>, AllocError>
    ensures { IfOk result (λ more. app_of more ≡ line.with_night (app_of command.entry)) }
{
    let at = option_free(
        alloc,
        "at",
        "CCYYMMDDHHMM",
        "run: the day and time that the night bears",
    );
    let command = with_argument(command, at)?;
    let name = option_free(
        alloc,
        "name",
        "NAME",
        "run: what the night is called [default: its moment]",
    );
    let command = with_argument(command, name)?;
    let again = option_repeated(
        alloc,
        "again",
        "FILE",
        "run: a file that goes in although older nights delivered its sets",
    );
    with_argument(command, again)
}

/// The program with the words that commands take.
fn words_command<'a>(alloc: Global) -> Result<Command<'a>, AllocError>
    ensures { IfOk result (λ command. app_of command ≡ line.words_app) }
{
    let command = program(
        alloc,
        PROGRAM,
        "Runs the nights of a hub, one after another",
        STATUSES,
    );
    let what = word(alloc, "command", "COMMAND", "init, run or give-up");
    let command = with_argument(command, what)?;
    let hub = word(alloc, "hub", "HUB", "The folder of the hub");
    let command = with_argument(command, hub)?;
    with_argument(command, files(alloc))
}

/// The files after the words, which not each command wants.
fn files<'a>(alloc: Global) -> Arg<'a>
    ensures rule { rule_of result ≡ line.file_rule }
    ensures local { result.global ≡ false }
{
    let files = words(
        alloc,
        "file",
        "FILE",
        "run: the files that came in, in their order",
    );
    files.required(false)
}

fn is_given(value: Option<&str>) -> bool
    ensures { result ≡ line.is_given (option_map (λ v. v.now) value.entry) }
{
    match value {
        None => false,
        Some(text) => text == "true",
    }
}

fn is_name_or_none(name: Option<&str>) -> bool
    ensures { result ≡ line.is_name_or_none (option_map (λ n. n.now) name.entry) }
{
    match name {
        None => true,
        Some(name) => is_night_name(name.as_bytes()),
    }
}

/// The paths of files.
#[derive(Drop)]
pub(crate) struct Paths<'a> {
    pub(crate) files: Vec<&'a str>,
    /// Those that are asked for again.
    pub(crate) again: Vec<&'a str>,
}

/// What a command is given besides the hub.
#[derive(Drop)]
pub(crate) struct Given<'a> {
    pub(crate) paths: Paths<'a>,
    pub(crate) at: Option<&'a str>,
    pub(crate) name: Option<&'a str>,
    pub(crate) sharing: Option<Sharing>,
}

/// Whether no file is named.
fn names_none(paths: &Paths<'_>) -> bool
    ensures { result ≡ (line.are_none (map (λ f. f.now) paths.now.files.items) && line.are_none (map (λ f. f.now) paths.now.again.items)) }
{
    paths.files.is_empty() && paths.again.is_empty()
}

fn run_given<'a>(hub: &'a str, given: Given<'a>) -> Option<Asked<'a>>
    ensures { (workers piece : Option ℕ) → AreShared workers piece given.entry.sharing
        → IsRequested (line.run_given hub.entry.now (map (λ f. f.now) given.entry.paths.files.items)
        (map (λ f. f.now) given.entry.paths.again.items) (text_of given.entry.at) (text_of given.entry.name) workers piece) result }
{
    let at = given.at?;
    let sharing = given.sharing?;
    if names_none(&given.paths) {
        return None;
    }
    let at = At::read(at.as_bytes())?;
    if is_name_or_none(given.name) {
        Some(Asked::Run(
            hub,
            Options {
                files: given.paths.files,
                again: given.paths.again,
                at,
                name: given.name,
                sharing,
            },
        ))
    } else {
        None
    }
}

/// Whether nothing but a hub is given.
fn is_bare(paths: &Paths<'_>, matches: &ArgMatches<'_>) -> bool
    requires { ArePaths (found_of matches.now) paths.now }
    ensures { result ≡ line.is_bare (line.rest_of (first_value (found_of matches.now)) (values_found (found_of matches.now))) }
{
    (paths.files.is_empty() && paths.again.is_empty())
        && (matches.get_str("at").is_none()
            && (matches.get_str("name").is_none()
                && (matches.get_str("workers").is_none() && matches.get_str("piece").is_none())))
}

/// What is given of a run of the files `paths`.
fn given_of<'a>(paths: Paths<'a>, matches: &ArgMatches<'a>) -> Given<'a>
    requires { ArePaths (found_of matches.now) paths }
    ensures { IsGiven (line.rest_of (first_value (found_of matches.now)) (values_found (found_of matches.now))) result }
{
    Given {
        paths,
        at: matches.get_str("at"),
        name: matches.get_str("name"),
        sharing: sharing_given(matches),
    }
}

/// The run that the values ask for.
fn run_found<'a>(hub: &'a str, paths: Paths<'a>, matches: &ArgMatches<'a>) -> Option<Asked<'a>>
    requires { ArePaths (found_of matches.now) paths }
    ensures { IsRequested (line.run_by hub.entry.now (line.rest_of (first_value (found_of matches.now))
        (values_found (found_of matches.now)))) result }
{
    run_given(hub, given_of(paths, matches))
}

/// What a command other than `run` asks for.
fn bare_found<'a>(command: &str, hub: &'a str, is_sent: bool) -> Option<Asked<'a>>
    ensures { IsRequested (line.bare_by command.now hub.entry.now (not is_sent)) result }
{
    if command == "give-up" {
        Some(Asked::GiveUp(hub, !is_sent))
    } else if command == "init" && is_sent {
        Some(Asked::Init(hub))
    } else {
        None
    }
}

/// What a command asks for of the folder at the path `hub`, by `paths` and the other values.
fn request_by<'a>(
    command: &str,
    hub: &'a str,
    paths: Paths<'a>,
    matches: &ArgMatches<'a>,
) -> Option<Asked<'a>>
    requires { ArePaths (found_of matches.now) paths }
    ensures { IsRequested (line.request_by command.now hub.entry.now (line.rest_of (first_value (found_of matches.now))
        (values_found (found_of matches.now)))) result }
{
    let not_sent = is_given(matches.get_str("not-sent"));
    if !is_path(hub) {
        None
    } else if command == "run" && !not_sent {
        run_found(hub, paths, matches)
    } else if !is_bare(&paths, matches) {
        None
    } else {
        bare_found(command, hub, !not_sent)
    }
}

/// What `paths` and the other values that clap found ask for.
fn request_found<'a>(paths: Paths<'a>, matches: &ArgMatches<'a>) -> Option<Asked<'a>>
    requires { ArePaths (found_of matches.now) paths }
    ensures { IsRequested (line.request_of (first_value (found_of matches.now)) (values_found (found_of matches.now))) result }
{
    let Some(command) = matches.get_str("command") else {
        return None;
    };
    let Some(hub) = matches.get_str("hub") else {
        return None;
    };
    request_by(command, hub, paths, matches)
}

fn request_asked<'a>(alloc: Global, matches: &ArgMatches<'a>) -> Result<Asked<'a>, Mistake>
    ensures given { IfOk result (IsRequest (line.request_of (first_value (found_of matches.now)) (values_found (found_of matches.now)))) }
    ensures usage { IfErr result (λ mistake. IsUsage mistake
        → line.request_of (first_value (found_of matches.now)) (values_found (found_of matches.now)) ≡ None) }
{
    let paths = Paths {
        files: texts_given(alloc, matches, "file")?,
        again: texts_given(alloc, matches, "again")?,
    };
    match request_found(paths, matches) {
        Some(asked) => Ok(asked),
        None => Err(Mistake::Usage(copy_text(alloc, USAGE)?)),
    }
}
