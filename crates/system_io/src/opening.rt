ghost use Rattle.std.specs.Prelude.{◌≡◌};

use std::marker::Model;
use std::rt::Files;
use std::{fs, io};

/// That the file at a path was asked for, and what the system answered. Only `open_at` makes one.
#[derive(Drop)]
pub struct Opened<'p, F> {
    path: &'p str,
    answer: io::Result<F>,
}

impl<'p, F> Model for Opened<'p, F> {
    ghost use Rattle.system_io.specs.Paths.{Opening};

    ghost Value = { Opening F };

    ghost view = { λ o. record { path = o.path.now; answer = o.answer } };
}

impl<'p, F> Opened<'p, F> {
    ghost use Rattle.std.specs.Prelude.{◌≡◌};

    /// The path.
    pub fn path(&self) -> &'p str
        ensures { result.now ≡ self.now.path }
    {
        self.path
    }

    /// The file, or why it wasn't opened.
    pub fn into_answer(self) -> io::Result<F>
        ensures { result ≡ self.entry.answer }
    {
        self.answer
    }
}

/// Opens the file at a path, to read it.
pub fn open_at<'p, R: Files>(rt: &R, path: &'p str) -> Opened<'p, R::File>
    ensures { result.path ≡ path.now }
{
    Opened {
        path,
        answer: fs::open(rt, path),
    }
}
