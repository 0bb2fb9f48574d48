ghost use Rattle.std.specs.Prelude.{◌≡◌, ℕ, List, Some, false, codes, IfNone, IfOk, IfSome};
ghost use Rattle.moment.specs.Moment.{IsMoment};
ghost use Rattle.clap.specs.Words.{app_of, first_value, found_of, rule_of};
ghost use Rattle.night_command.specs.CommandLine.{option_wanted, options_wanted, with_night, with_setup};

use clap::{Arg, ArgMatches, Command};
use moment::At;
use program_frame::{option_free, option_repeated};
use std::alloc::{AllocError, Global};
use system_io::with_argument;

/// The command with the options that name the setup, the moment and the input of a night.
pub fn with_night<'a>(alloc: Global, command: Command<'a>) -> Result<Command<'a>, AllocError>
    ensures { IfOk result (λ more. app_of more ≡ with_night (app_of command.entry)) }
{
    let command = with_setup(alloc, command)?;
    let at = option_wanted(
        alloc,
        "at",
        "CCYYMMDDHHMM",
        "The day and time that the night bears",
    );
    let command = with_argument(command, at)?;
    let input = option_wanted(alloc, "in", "FILE", "The interchanges that came in");
    with_argument(command, input)
}

/// The command with the options that name the setup.
fn with_setup<'a>(alloc: Global, command: Command<'a>) -> Result<Command<'a>, AllocError>
    ensures { IfOk result (λ more. app_of more ≡ with_setup (app_of command.entry)) }
{
    let setup = option_wanted(alloc, "setup", "FILE", "The partners and routes");
    let command = with_argument(command, setup)?;
    let guide = options_wanted(alloc, "guide", "FILE", "A guide, given once for each");
    let command = with_argument(command, guide)?;
    let counters = option_wanted(alloc, "counters", "FILE", "The numbers to go on from");
    with_argument(command, counters)
}

/// The option `--name`, which is wanted and is given once. Help shows its value as `value`, and says `help`.
pub fn option_wanted<'a>(alloc: Global, name: &'a str, value: &'a str, help: &'a str) -> Arg<'a>
    ensures rule { rule_of result ≡ option_wanted name.now }
    ensures local { result.global ≡ false }
{
    option_free(alloc, name, value, help).required(true)
}

/// The option `--name`, which is wanted and is given once or more. Help shows its value as `value`, and says `help`.
fn options_wanted<'a>(alloc: Global, name: &'a str, value: &'a str, help: &'a str) -> Arg<'a>
    ensures rule { rule_of result ≡ options_wanted name.now }
    ensures local { result.global ≡ false }
{
    option_repeated(alloc, name, value, help).required(true)
}

/// The moment that the arguments name, if there is such a one.
pub fn moment_given(matches: &ArgMatches<'_>) -> Option<At>
    ensures some { IfSome result (λ at. first_value (found_of matches.now) (codes "at") ≡ Some at) }
    ensures none { IfNone result ((text : List ℕ) → first_value (found_of matches.now) (codes "at") ≡ Some text → IsMoment text → ⊥) }
{
    let text = matches.get_str("at")?;
    At::read(text.as_bytes())
}
