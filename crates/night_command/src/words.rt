ghost use Rattle.std.specs.Prelude.{IfErr};
ghost use Rattle.night_command.specs.Failure.{IsOfWords};

use crate::failure::Failure;
use std::rt::Env;
use std::{env, io};

/// The program's arguments, without its name. Errors: usage, if one isn't UTF-8; or memory.
pub fn program_words<R: Env + AllocGlobal>(rt: &R) -> Result<Vec<String>, Failure<'static>>
    ensures { IfErr result IsOfWords }
{
    let words = env::args(rt).map_err(of_words)?;
    words
        .skip(1)
        .collect::<Vec<String>>(rt.alloc())
        .map_err(|_| Failure::Memory)
}

fn of_words(error: io::Error) -> Failure<'static>
    ensures { IsOfWords result }
{
    Failure::of_fault(error, Failure::Usage)
}
