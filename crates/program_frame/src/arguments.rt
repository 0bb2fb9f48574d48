ghost use Rattle.std.specs.Prelude.{◌≡◌, false};
ghost use Rattle.clap.specs.Words.{app_of, rule_of};
ghost use Rattle.program_frame.specs.Arguments as rule;

use clap::{Arg, ArgAction, Command};
use std::alloc::Global;
use system_io::RELEASE;

/// The program `name` without its arguments, which has a version: `--help` shows `about`, and `after` at its end.
pub fn program<'a>(alloc: Global, name: &'a str, about: &'a str, after: &'a str) -> Command<'a>
    ensures { app_of result ≡ rule.program name.now }
{
    Command::new(alloc, name)
        .about(about)
        .version(RELEASE)
        .after_help(after)
        .no_binary_name(true)
}

/// The argument `name`, whose value help shows as `value`, and of which it says `help`.
fn valued<'a>(alloc: Global, name: &'a str, value: &'a str, help: &'a str) -> Arg<'a>
    ensures rule { rule_of result ≡ rule.valued name.now }
    ensures local { result.global ≡ false }
{
    Arg::new(alloc, name).value_name(value).help(help)
}

/// The option `--name`, given once or not at all. Help shows its value as `value`, and says `help`.
pub fn option_free<'a>(alloc: Global, name: &'a str, value: &'a str, help: &'a str) -> Arg<'a>
    ensures rule { rule_of result ≡ rule.option_free name.now }
    ensures local { result.global ≡ false }
{
    let option = valued(alloc, name, value, help);
    option.long(name).action(ArgAction::Set)
}

/// The option `--name`, given any number of times. Help shows its value as `value`, and says `help`.
pub fn option_repeated<'a>(alloc: Global, name: &'a str, value: &'a str, help: &'a str) -> Arg<'a>
    ensures rule { rule_of result ≡ rule.option_repeated name.now }
    ensures local { result.global ≡ false }
{
    let option = valued(alloc, name, value, help);
    option.long(name).action(ArgAction::Append)
}

/// The option `--name`, which has no value. Help says `help`.
pub fn option_flag<'a>(alloc: Global, name: &'a str, help: &'a str) -> Arg<'a>
    ensures rule { rule_of result ≡ rule.option_flag name.now }
    ensures local { result.global ≡ false }
{
    let option = Arg::new(alloc, name).long(name).help(help);
    option.action(ArgAction::SetTrue)
}

/// The argument `name`, which is given by its place and is wanted. Help shows it as `value`, and says `help`.
pub fn word<'a>(alloc: Global, name: &'a str, value: &'a str, help: &'a str) -> Arg<'a>
    ensures rule { rule_of result ≡ rule.word name.now }
    ensures local { result.global ≡ false }
{
    let word = valued(alloc, name, value, help);
    word.required(true).action(ArgAction::Set)
}

/// The arguments `name`, which are given by their place: one or more are wanted. Help shows them as `value`, and says `help`.
pub fn words<'a>(alloc: Global, name: &'a str, value: &'a str, help: &'a str) -> Arg<'a>
    ensures rule { rule_of result ≡ rule.words name.now }
    ensures local { result.global ≡ false }
{
    let word = valued(alloc, name, value, help);
    word.required(true).action(ArgAction::Append)
}
