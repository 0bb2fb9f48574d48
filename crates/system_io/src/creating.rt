ghost use Rattle.std.specs.Prelude.{◌≡◌, IfOk, string_bytes};
ghost use Rattle.system_io.specs.Paths.{AsksForEmptied, AsksForNew};

use std::fs::OpenOptions;
use std::io;
use std::marker::Model;
use std::rt::Files;

/// A file that was made at a path, to be written. Only `create_at` and `create_new_at` make one.
#[derive(Drop)]
pub struct Created<F> {
    pub(crate) path: String,
    pub(crate) file: F,
    // what the system was asked for
    how: OpenOptions,
}

impl<F> Model for Created<F> {
    ghost use Rattle.std.specs.Prelude.{string_bytes};
    ghost use Rattle.system_io.specs.Paths.{Creation};

    ghost Value = { Creation F };

    ghost view = { λ c. record { path = string_bytes c.path; file = c.file; how = c.how } };
}

impl<F> Created<F> {
    ghost use Rattle.std.specs.Prelude.{◌≡◌};

    /// The path of the file.
    pub fn path(&self) -> &str
        ensures { result.now ≡ self.now.path }
    {
        self.path.as_str()
    }

    /// The file.
    pub fn into_file(self) -> F
        ensures { result ≡ self.file }
    {
        self.file
    }
}

/// Makes the file at a path, or empties the one that is there.
pub fn create_at<R: Files>(rt: &R, path: String) -> io::Result<Created<R::File>>
    ensures path { IfOk result (λ created. created.path ≡ string_bytes path) }
    ensures how { IfOk result (λ created. AsksForEmptied created.how) }
{
    let mut how = OpenOptions::new();
    how.write(true);
    how.create(true);
    how.truncate(true);
    created_by(rt, how, path)
}

/// Makes the file at a path where nothing is. A file that is there is left as it is.
pub fn create_new_at<R: Files>(rt: &R, path: String) -> io::Result<Created<R::File>>
    ensures path { IfOk result (λ created. created.path ≡ string_bytes path) }
    ensures how { IfOk result (λ created. AsksForNew created.how) }
{
    let mut how = OpenOptions::new();
    how.write(true);
    how.create_new(true);
    created_by(rt, how, path)
}

/// Opens the file at a path as `how` asks.
fn created_by<R: Files>(rt: &R, how: OpenOptions, path: String) -> io::Result<Created<R::File>>
    ensures path { IfOk result (λ created. created.path ≡ string_bytes path) }
    ensures how { IfOk result (λ created. created.how ≡ how) }
{
    let file = how.open(rt, path.as_str())?;
    Ok(Created { path, file, how })
}
