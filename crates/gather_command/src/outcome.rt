ghost use Rattle.std.specs.Prelude.{◌≡◌};
ghost use Rattle.gather_command.specs.Members.{taken_of};

use gather_files::{Gathered, Taken};

/// What became of a file that was named.
#[derive(Clone, Copy, Debug, PartialEq, Eq)]
pub enum Outcome {
    /// It was read, and taken or set aside for what it holds.
    Read(Gathered),
    /// It changed while it was read, and nothing of it is written.
    Changed,
    /// Its name isn't UTF-8, so it can't be opened.
    NameNotUtf8,
}

/// How a file goes in, if it is taken.
pub fn taken_of(outcome: Outcome) -> Option<Taken>
    ensures { result ≡ taken_of outcome }
{
    match outcome {
        Outcome::Read(Gathered::Taken(taken)) => Some(taken),
        Outcome::Read(Gathered::SetAside(_)) => None,
        Outcome::Changed => None,
        Outcome::NameNotUtf8 => None,
    }
}
