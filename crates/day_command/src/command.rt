ghost use Rattle.std.specs.Prelude.{◌≡◌, None, Some, false, map, option_map, IfOk, IfErr};
ghost use Rattle.clap.specs.Words.{app_of, first_value, found_of, rule_of};
ghost use Rattle.program_frame.specs.Mistake.{IsUsage};
ghost use Rattle.day_command.specs.CommandLine as line;

use clap::{Arg, ArgAction, ArgMatches, Command};
use file_names::is_not_utf_8;
use hub_kinds::copy_text;
use program_frame::{Matched, Mistake, match_words, option_flag, program, word};
use sets_again::Wanted;
use std::alloc::{AllocError, Global};
use std::convert::AsStr;
use system_io::with_argument;
use track_read::Form;

/// The name of the program.
pub(crate) const PROGRAM: &str = "nighthub_day";

/// What the text of `--help` ends with.
const STATUSES: &str = "Commands:
  check NIGHTS            says whether each night goes on from those before it,
                          and each record (night.toml), if one can be read
  find NIGHTS TEXT        prints a line for each row of the nights' track.csv
                          whose document number contains TEXT
  export [--sheet] NIGHTS
                          prints the rows of the nights' track.csv as one CSV,
                          the night in the first column; with --sheet no field
                          is a formula
  page NIGHTS NIGHT       prints a page of HTML on the night NIGHT: what there
                          is to do, what senders are told, all sets
  again [--rejected] NIGHTS NIGHT
                          prints an input of the sets of the night NIGHT that
                          were held for lack of a route, or were rejected

Also init, run and give-up, for the nights of a hub: nighthub_day run --help.

Status:
  0  check: each night goes on from those before it; find: a row was found, and
     each track.csv was read; export: each track.csv was read; page:
     there is nothing to do at the hub; again: a set is printed
  1  check: one doesn't, a line for each breach; find: none was found, or a
     track.csv wasn't read; export: a track.csv wasn't read; page: there is
     something to do; again: there is no such set, says a line on standard
     error
  2  usage
  4  NIGHTS can't be read; page: or the night's track.csv or out/, or the table
     doesn't give the totals in the file total; again: or the night's
     from/in.x12 or track.csv, or they don't fit one another
  5  standard output; export, again: or standard error
  6  no memory

Examples:
  nighthub_day check nights
  nighthub_day find nights 4500012348
  nighthub_day export nights >sets.csv
  nighthub_day page nights 20260301 >nights/20260301/page.html
  nighthub_day again nights 20260301 >again.x12";

/// What the arguments ask for.
#[derive(Debug, Drop)]
pub enum Asked<'a> {
    /// To check the nights in the folder at this path.
    Check(&'a str),
    /// To find a text in the documents of the nights in the folder at this path.
    Find(&'a str, &'a str),
    /// To export the tables of the nights in the folder at this path.
    Export(&'a str, Form),
    /// To write the page of a night in the folder at this path.
    Page(&'a str, &'a str),
    /// To print the sets of a night that go in again, in the folder at this path.
    Again(&'a str, &'a str, Wanted),
    /// To show a text: help, or the version.
    Show(String),
}

/// Reads the program's arguments without its name.
pub fn read_words<'a, S: AsStr>(alloc: Global, words: &'a [S]) -> Result<Asked<'a>, Mistake>
    ensures asked { IfOk result (line.IsAsked (map S.text words.now)) }
    ensures usage { IfErr result (λ mistake. IsUsage mistake → line.IsCommandLine (map S.text words.now) → ⊥) }
{
    let command = command(alloc)?;
    match match_words(alloc, command, words)? {
        Matched::Values(values) => request_asked(alloc, &values),
        Matched::Text(text) => Ok(Asked::Show(text)),
    }
}

fn command<'a>(alloc: Global) -> Result<Command<'a>, AllocError>
    ensures { IfOk result (λ command. app_of command ≡ line.day_app) }
{
    let command = words_command(alloc)?;
    let command = with_argument(command, text(alloc))?;
    let sheet = option_flag(
        alloc,
        "sheet",
        "export: an apostrophe before each field that begins with = + - or @",
    );
    let command = with_argument(command, sheet)?;
    let rejected = option_flag(
        alloc,
        "rejected",
        "again: the sets that were rejected, in place of those without a route",
    );
    with_argument(command, rejected)
}

/// The program with the words that each command takes.
fn words_command<'a>(alloc: Global) -> Result<Command<'a>, AllocError>
    ensures { IfOk result (λ command. app_of command ≡ line.words_app) }
{
    let command = program(
        alloc,
        PROGRAM,
        "Checks, searches and exports the nights of a folder, and writes pages of them",
        STATUSES,
    );
    let what = word(
        alloc,
        "command",
        "COMMAND",
        "check, find, export, page or again; each only reads",
    );
    let command = with_argument(command, what)?;
    let nights = word(
        alloc,
        "nights",
        "NIGHTS",
        "The folder of all nights, as nighthub_day run makes it",
    );
    with_argument(command, nights)
}

/// The text to find.
fn text<'a>(alloc: Global) -> Arg<'a>
    ensures rule { rule_of result ≡ line.text_rule }
    ensures local { result.global ≡ false }
{
    Arg::new(alloc, "text")
        .value_name("TEXT")
        .help("find: a part of a document number; page, again: a night's name")
        .required(false)
        .action(ArgAction::Set)
}

fn is_given(value: Option<&str>) -> bool
    ensures { result ≡ line.is_given (option_map (λ v. v.now) value.entry) }
{
    match value {
        None => false,
        Some(text) => text == "true",
    }
}

fn is_text(text: &str) -> bool
    ensures { result ≡ line.is_text text.now }
{
    match text.as_bytes() {
        [] => false,
        [..] => !is_not_utf_8(text),
    }
}

fn form_of(is_sheet: bool) -> Form
    ensures { result ≡ line.form_of is_sheet }
{
    if is_sheet { Form::Sheet } else { Form::Plain }
}

fn wanted_of(is_rejected: bool) -> Wanted
    ensures { result ≡ line.wanted_of is_rejected }
{
    if is_rejected {
        Wanted::Rejected
    } else {
        Wanted::HeldForRoute
    }
}

/// What a command without a text asks for.
fn without_text<'a>(
    command: &str,
    nights: &'a str,
    is_sheet: bool,
    is_rejected: bool,
) -> Option<Asked<'a>>
    ensures { line.IsRequested (line.request_by command.now nights.entry.now None is_sheet is_rejected) result }
{
    if command == "export" && !is_rejected {
        Some(Asked::Export(nights, form_of(is_sheet)))
    } else if command == "check" && (!is_sheet && !is_rejected) {
        Some(Asked::Check(nights))
    } else {
        None
    }
}

/// What a command with a text asks for.
fn with_text<'a>(
    command: &str,
    nights: &'a str,
    text: &'a str,
    is_sheet: bool,
    is_rejected: bool,
) -> Option<Asked<'a>>
    ensures { line.IsRequested (line.request_by command.now nights.entry.now (Some text.entry.now) is_sheet is_rejected) result }
{
    if command == "again" && (is_text(text) && !is_sheet) {
        Some(Asked::Again(nights, text, wanted_of(is_rejected)))
    } else if command == "find" && (is_text(text) && (!is_sheet && !is_rejected)) {
        Some(Asked::Find(nights, text))
    } else if command == "page" && (is_text(text) && (!is_sheet && !is_rejected)) {
        Some(Asked::Page(nights, text))
    } else {
        None
    }
}

/// What a command asks for by the values of the arguments.
fn request<'a>(
    command: &str,
    nights: &'a str,
    text: Option<&'a str>,
    is_sheet: bool,
    is_rejected: bool,
) -> Option<Asked<'a>>
    ensures { line.IsRequested
        (line.request_by command.now nights.entry.now (option_map (λ t. t.now) text.entry) is_sheet is_rejected) result }
{
    match text {
        None => without_text(command, nights, is_sheet, is_rejected),
        Some(text) => with_text(command, nights, text, is_sheet, is_rejected),
    }
}

/// What the values that clap found ask for.
fn request_found<'a>(matches: &ArgMatches<'a>) -> Option<Asked<'a>>
    ensures { line.IsRequested (line.request_of (first_value (found_of matches.now))) result }
{
    let Some(command) = matches.get_str("command") else {
        return None;
    };
    let Some(nights) = matches.get_str("nights") else {
        return None;
    };
    let is_sheet = is_given(matches.get_str("sheet"));
    let is_rejected = is_given(matches.get_str("rejected"));
    request(
        command,
        nights,
        matches.get_str("text"),
        is_sheet,
        is_rejected,
    )
}

fn request_asked<'a>(alloc: Global, matches: &ArgMatches<'a>) -> Result<Asked<'a>, Mistake>
    ensures given { IfOk result (line.IsRequest (line.request_of (first_value (found_of matches.now)))) }
    ensures usage { IfErr result (λ mistake. IsUsage mistake → line.request_of (first_value (found_of matches.now)) ≡ None) }
{
    match request_found(matches) {
        Some(asked) => Ok(asked),
        None => Err(Mistake::Usage(copy_text(
            alloc,
            b"it takes check NIGHTS, find NIGHTS TEXT, where TEXT isn't empty, export [--sheet] NIGHTS, page NIGHTS NIGHT, \
              or again [--rejected] NIGHTS NIGHT",
        )?)),
    }
}
