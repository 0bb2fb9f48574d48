ghost use Rattle.std.specs.Prelude.{◌≡◌, false, option_map};
ghost use Rattle.clap.specs.Words.{first_value, found_of, rule_of};
ghost use Rattle.night_command.specs.CommandLine.{IsShared, number_given, piece_rule, up_to_most, workers_rule};

use clap::{Arg, ArgMatches, value_parser};
use hub_kinds::{LONGEST_TEXT, read_number};
use program_frame::option_free;
use std::alloc::Global;

/// How many workers share a night where the arguments don't say it.
const WORKERS: u64 = 4;
/// How many may.
const MOST_WORKERS: u64 = 64;
/// How many bytes a piece has where the arguments don't say it.
const PIECE: u64 = 1_048_576;
/// How many digits a number of the arguments has at most.
const MOST_DIGITS: usize = 10;

/// How a night is shared.
#[derive(Clone, Copy, Debug)]
pub struct Sharing {
    /// Among how many workers, 1 to 64.
    pub workers: u64,
    /// How many bytes of the input a worker takes at a time, 1 or more.
    pub piece: u64,
}

/// The option for the number of workers, 1 to 64, which is optional.
pub fn workers_option<'a>(alloc: Global, help: &'a str) -> Arg<'a>
    ensures rule { rule_of result ≡ workers_rule }
    ensures local { result.global ≡ false }
{
    option_free(alloc, "workers", "N", help).value_parser(value_parser!(u64).range(1..=64))
}

/// The option for how many bytes a worker takes at a time, 1 to 4,294,967,295, which is optional.
pub fn piece_option<'a>(alloc: Global, help: &'a str) -> Arg<'a>
    ensures rule { rule_of result ≡ piece_rule }
    ensures local { result.global ≡ false }
{
    option_free(alloc, "piece", "BYTES", help).value_parser(value_parser!(u64).range(
        1..=4_294_967_295,
    ))
}

/// How the night is shared, if it can be so.
pub fn sharing_given(matches: &ArgMatches<'_>) -> Option<Sharing>
    ensures { IsShared (first_value (found_of matches.now)) result }
{
    let workers = number_given(matches.get_str("workers"), WORKERS, MOST_WORKERS)?;
    let piece = number_given(matches.get_str("piece"), PIECE, LONGEST_TEXT as u64)?;
    Some(Sharing { workers, piece })
}

/// The number that an option gives which is optional, from 1 up to the most.
fn number_given(text: Option<&str>, otherwise: u64, most: u64) -> Option<u64>
    ensures { result ≡ number_given otherwise most (option_map (λ t. t.now) text.entry) }
{
    match text {
        None => Some(otherwise),
        Some(text) => up_to_most(most, read_number(text.as_bytes(), MOST_DIGITS)),
    }
}

fn up_to_most(most: u64, number: Option<u64>) -> Option<u64>
    ensures { result ≡ up_to_most most number }
{
    match number {
        None => None,
        Some(number) => {
            if 1 <= number && number <= most {
                Some(number)
            } else {
                None
            }
        }
    }
}
