ghost use Rattle.std.specs.Prelude.{◌≡◌, false, map, IfOk};
ghost use Rattle.clap.specs.Words.{app_of, found_of, rule_of, with_rule};
ghost use Rattle.system_io.specs.Words.{or_none, values_found};

use clap::{Arg, ArgMatches, Command};
use std::alloc::{AllocError, Global};

/// The command with one argument more.
pub fn with_argument<'a>(command: Command<'a>, argument: Arg<'a>) -> Result<Command<'a>, AllocError>
    requires { argument.global ≡ false }
    ensures { IfOk result (λ more. app_of more ≡ with_rule (app_of command.entry) (rule_of argument.entry)) }
{
    command.arg(argument)
}

/// The texts that the command line gives an argument of this name, none where it doesn't give it.
pub fn texts_given<'a>(
    alloc: Global,
    matches: &ArgMatches<'a>,
    name: &str,
) -> Result<Vec<&'a str>, AllocError>
    ensures { IfOk result (λ texts. or_none (values_found (found_of matches.now) name.now) ≡ map (λ t. t.now) texts.items) }
{
    match matches.get_strs(name) {
        None => Ok(Vec::new(alloc)),
        Some(texts) => copied(alloc, texts),
    }
}

/// A copy of the list of texts.
pub fn copied<'a>(alloc: Global, texts: &[&'a str]) -> Result<Vec<&'a str>, AllocError>
    ensures { IfOk result (λ copy. copy.items ≡ texts.now) }
{
    let mut copy = Vec::new(alloc);
    copy.extend_from_slice(texts)?;
    Ok(copy)
}
