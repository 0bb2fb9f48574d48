ghost use Rattle.std.specs.Prelude.{◌≡◌, ◌≢◌, map, true, IfErr, IfOk};
ghost use Rattle.clap.specs.Words.{app_of, is_simple_and_free, kind_of, takes};
ghost use Rattle.program_frame.specs.Matching.{IsMatched, IsTextBy};
ghost use Rattle.program_frame.specs.Mistake.{IsUsage};

use crate::mistake::Mistake;
use clap::error::ErrorKind;
use clap::{ArgMatches, Command, Error};
use std::alloc::Global;
use std::convert::AsStr;
use system_io::mistake_found;

/// What a program's arguments are.
#[derive(Debug, Drop)]
pub enum Matched<'a> {
    /// These values by their names.
    Values(ArgMatches<'a>),
    /// They ask for this text: help, or the version.
    Text(String),
}

/// Reads `words`, the arguments of the program `command` without its name.
pub fn match_words<'a, S: AsStr>(
    alloc: Global,
    command: Command<'a>,
    words: &'a [S],
) -> Result<Matched<'a>, Mistake>
    requires { is_simple_and_free (app_of command) ≡ true }
    ensures matched { IfOk result (IsMatched (app_of command.entry) (map S.text words.entry.now)) }
    ensures usage { IfErr result (λ mistake. IsUsage mistake → takes (app_of command.entry) (map S.text words.entry.now) ≡ true → ⊥) }
{
    match command.try_get_matches_from(words) {
        Ok(values) => Ok(Matched::Values(values)),
        Err(error) => text_asked(alloc, &error),
    }
}

/// The text that the arguments ask for, by clap's `error`, or the mistake that it reports.
fn text_asked<'a>(alloc: Global, error: &Error) -> Result<Matched<'a>, Mistake>
    ensures text { IfOk result (IsTextBy (kind_of error.now)) }
    ensures usage { IfErr result (λ mistake. IsUsage mistake → kind_of error.now ≢ ErrorKind.OutOfMemory) }
{
    match error.kind() {
        ErrorKind::DisplayHelp | ErrorKind::DisplayVersion => {
            let text = format!(in alloc; "{error}")?;
            Ok(Matched::Text(text))
        }
        ErrorKind::OutOfMemory => Err(Mistake::Memory),
        _ => Err(Mistake::Usage(mistake_found(alloc, error)?)),
    }
}
