ghost use Rattle.std.specs.Prelude.{◌≡◌};

use std::marker::Model;
use std::rt::Files;
use std::{fs, io};

/// That the system was asked whether something is at a path, and what it answered. Only `look_at` makes one.
#[derive(Drop)]
pub struct Looked<'p> {
    path: &'p str,
    answer: io::Result<bool>,
}

impl<'p> Model for Looked<'p> {
    ghost use Rattle.system_io.specs.Paths.{Look};

    ghost Value = { Look };

    ghost view = { λ l. record { path = l.path.now; answer = l.answer } };
}

impl<'p> Looked<'p> {
    ghost use Rattle.std.specs.Prelude.{◌≡◌};
    ghost use Rattle.system_io.specs.Paths.{IsPresence};

    /// What is at the path.
    pub fn presence(self) -> Presence<'p>
        ensures { IsPresence self.entry result }
    {
        match self.answer {
            Ok(false) => Presence::Nothing(Absent { path: self.path }),
            Ok(true) => Presence::Something,
            Err(error) => Presence::Unknown(error),
        }
    }
}

/// What is at a path, as the system answered.
#[derive(Drop)]
pub enum Presence<'p> {
    /// Nothing.
    Nothing(Absent<'p>),
    /// A file, or something else.
    Something,
    /// The system couldn't say.
    Unknown(io::Error),
}

/// That the system answered that nothing is at a path. Only `presence` makes one.
#[derive(Drop)]
pub struct Absent<'p> {
    path: &'p str,
}

impl<'p> Model for Absent<'p> {
    ghost use Rattle.std.specs.Prelude.{ℕ, List};

    ghost Value = { List ℕ };

    ghost view = { λ a. a.path.now };
}

impl<'p> Absent<'p> {
    ghost use Rattle.std.specs.Prelude.{◌≡◌};

    /// The path.
    pub fn path(&self) -> &'p str
        ensures { result.now ≡ self.now }
    {
        self.path
    }
}

/// Asks whether something is at a path.
pub fn look_at<'p, R: Files>(rt: &R, path: &'p str) -> Looked<'p>
    ensures { result.path ≡ path.now }
{
    Looked {
        path,
        answer: fs::exists(rt, path),
    }
}
