ghost use Rattle.std.specs.Prelude.{◌≡◌, ◌⊎◌, ◌++◌, OnOk};
ghost use Rattle.std.specs.Io.KnownBytes.{Appends};
ghost use Rattle.std.specs.IoError.{error_kind};
ghost use Rattle.file_names.specs.Shown.{shown};
ghost use Rattle.gather_command.specs.Failure.{IsMemoryOr, after_path, before_path, failure_of, line_of, path_of, status_of};

use file_names::print_shown;
use gather_files::GatherFault;
use hub_kinds::NoMemory;
use program_frame::Reported;
use std::alloc::{AllocError, Global};
use std::io;
use std::io::Write;
use system_io::print_text;

/// Why a run failed.
#[derive(Clone, Copy, Debug, PartialEq, Eq)]
pub enum Failure<'a> {
    /// The file at this path can't be read.
    Input(&'a str),
    /// With the file at this path there are more than 4,294,967,295 bytes.
    TooLong(&'a str),
    /// The file that is to be made can't be written.
    Output(&'a str),
    /// The file that is to be made is there already.
    There(&'a str),
    /// What is written beside it is there already: another run's, or somebody's own file.
    PartThere(&'a str),
    /// Memory was asked for and refused.
    Memory,
}

impl<'a> Failure<'a> {
    /// The failure that a fault of the system represents, where it isn't out of memory.
    pub fn of_fault(error: io::Error, other: Failure<'a>) -> Failure<'a>
        ensures { IsMemoryOr (error_kind error) other.entry result }
    {
        match error.kind() {
            io::ErrorKind::OutOfMemory => Failure::Memory,
            _ => other,
        }
    }

    /// The failure of a file that isn't gathered, into another.
    pub fn of_gathering(fault: GatherFault, file: &'a str, out: &'a str) -> Failure<'a>
        ensures { result ≡ failure_of fault file.entry out.entry }
    {
        match fault {
            GatherFault::Read => Failure::Input(file),
            GatherFault::TooLong => Failure::TooLong(file),
            GatherFault::Output => Failure::Output(out),
            GatherFault::NoMemory => Failure::Memory,
        }
    }

    /// Prints the failure's line, and gives the status that the program ends with, and whether the line is printed. A fault of standard
    /// error changes no status.
    pub fn report<E: Write>(self, alloc: Global, err: &mut E) -> Reported
        ensures status { result.status ≡ status_of self.entry }
        ensures values { (result.status ≡ 4) ⊎ ((result.status ≡ 5) ⊎ (result.status ≡ 6)) }
        ensures printed { OnOk result.printed (Appends (E.contents err.old) (E.contents err.new) (line_of self.entry)) }
    {
        Reported {
            printed: self.print(alloc, err),
            status: self.status(),
        }
    }

    /// Writes the line that says what failed (own).
    pub fn print<E: Write>(self, alloc: Global, err: &mut E) -> io::Result<()>
        ensures { OnOk result (Appends (E.contents err.old) (E.contents err.new) (line_of self.entry)) }
    {
        print_text(self.before_path().as_bytes(), err)?;
        self.print_path(alloc, err)
    }

    fn print_path<E: Write>(self, alloc: Global, err: &mut E) -> io::Result<()>
        ensures { OnOk result (Appends (E.contents err.old) (E.contents err.new) (shown (path_of self.entry) ++ after_path self.entry)) }
    {
        print_shown(alloc, self.path().as_bytes(), err)?;
        print_text(self.after_path().as_bytes(), err)
    }

    fn before_path(self) -> &'static str
        ensures { result.now ≡ before_path self.entry }
    {
        match self {
            Failure::Input(_) | Failure::TooLong(_) => "nighthub_gather: input ",
            Failure::Output(_) | Failure::There(_) | Failure::PartThere(_) =>
                "nighthub_gather: output ",
            Failure::Memory => "nighthub_gather: memory",
        }
    }

    fn path(self) -> &'a str
        ensures { result.now ≡ path_of self.entry }
    {
        match self {
            Failure::Input(path)
            | Failure::TooLong(path)
            | Failure::Output(path)
            | Failure::There(path)
            | Failure::PartThere(path) => path,
            Failure::Memory => "",
        }
    }

    fn after_path(self) -> &'static str
        ensures { result.now ≡ after_path self.entry }
    {
        match self {
            Failure::TooLong(_) => " too long\n",
            Failure::There(_) => " is there already\n",
            Failure::PartThere(_) => ".part is there already\n",
            Failure::Input(_) | Failure::Output(_) | Failure::Memory => "\n",
        }
    }

    fn status(self) -> u8
        ensures status { result ≡ status_of self.entry }
        ensures values { (result ≡ 4) ⊎ ((result ≡ 5) ⊎ (result ≡ 6)) }
    {
        match self {
            Failure::Input(_) | Failure::TooLong(_) => 4,
            Failure::Output(_) | Failure::There(_) | Failure::PartThere(_) => 5,
            Failure::Memory => 6,
        }
    }
}

impl<'a> From<AllocError> for Failure<'a> {
    ghost use Rattle.std.specs.Prelude.{◌≡◌};
    ghost use Rattle.gather_command.specs.declared.failure.Failure.TheVariants.{Memory};

    ghost from_gives = { λ _ failure. failure ≡ Memory };

    fn from(_error: AllocError) -> Failure<'a> {
        Failure::Memory
    }
}

impl<'a> From<NoMemory> for Failure<'a> {
    ghost use Rattle.std.specs.Prelude.{◌≡◌};
    ghost use Rattle.gather_command.specs.declared.failure.Failure.TheVariants.{Memory};

    ghost from_gives = { λ _ failure. failure ≡ Memory };

    fn from(_error: NoMemory) -> Failure<'a> {
        Failure::Memory
    }
}
