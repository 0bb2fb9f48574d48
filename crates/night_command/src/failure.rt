ghost use Rattle.std.specs.Prelude.{◌≡◌, ◌⊎◌, ◌++◌, OnOk, decimal};
ghost use Rattle.std.specs.Io.KnownBytes.{Appends};
ghost use Rattle.std.specs.IoError.{error_kind};
ghost use Rattle.night_command.specs.Failure.{IsMemoryOr, cause_of, file_number, guide_file_number, line_of, name_of, number_of};
ghost use Rattle.night_command.specs.Failure.{number_text, own_number, status_of, subject_of};

use crate::put_fault::PutFault;
use guide_toml::GuideFileFault;
use hub_kinds::{NoMemory, Text};
use hub_run::RunFault;
use itoa::Buffer;
use partner_setup::{FileFault, SetupFault};
use std::alloc::{AllocError, AllocFailed};
use std::io;
use std::io::Write;

/// Why a run failed. Of a file's refusal, none represents a file that can't be read.
#[derive(Debug, Drop)]
pub enum Failure<'a> {
    /// The arguments are not those of the command line.
    Usage,
    /// The guide at this path isn't taken.
    Guide(&'a str, Option<GuideFileFault>),
    /// The setup file isn't taken.
    SetupFile(Option<FileFault>),
    /// The counters file isn't taken.
    CountersFile(Option<FileFault>),
    /// The files make no setup.
    Setup(SetupFault),
    /// The input can't be read.
    Input,
    /// The input has over 4,294,967,295 bytes.
    InputTooLong,
    /// The file of this name can't be written.
    Output(Text),
    /// Standard output failed.
    Stdout,
    /// Memory was refused.
    Memory,
    /// A thread was refused.
    Thread,
}

impl<'a> Failure<'a> {
    /// The failure that a fault of the system represents, where it isn't out of memory.
    pub fn of_fault(error: io::Error, other: Failure<'a>) -> Failure<'a>
        ensures fault { IsMemoryOr (error_kind error) other.entry result }
        ensures either { (result ≡ Failure.Memory) ⊎ (result ≡ other.entry) }
    {
        match error.kind() {
            io::ErrorKind::OutOfMemory => Failure::Memory,
            _ => other,
        }
    }

    /// Prints the failure's line, as `print` does, and gives the status that the program ends with. A fault of standard error is
    /// passed over.
    pub fn report<E: Write>(&self, err: &mut E) -> u8
        ensures { result ≡ status_of self.now }
    {
        let _ = self.print(err);
        let _ = err.flush();
        self.status()
    }

    /// Writes the line that says what failed (own): `nighthub: ` and what it is, with its name and its number.
    pub fn print<E: Write>(&self, err: &mut E) -> io::Result<()>
        ensures { OnOk result (Appends (E.contents err.old) (E.contents err.new) (line_of self.now)) }
    {
        err.write_all(b"nighthub: ")?;
        self.print_cause(err)
    }

    /// Writes what failed, with its name and its number, and ends the line.
    pub fn print_cause<E: Write>(&self, err: &mut E) -> io::Result<()>
        ensures { OnOk result (Appends (E.contents err.old) (E.contents err.new) (cause_of self.now)) }
    {
        err.write_all(self.subject().as_bytes())?;
        err.write_all(self.name())?;
        self.print_number(err)?;
        err.write_all(b"\n")
    }

    fn subject(&self) -> &'static str
        ensures { result.now ≡ subject_of self.now }
    {
        match self {
            Failure::Usage => "usage",
            Failure::Guide(_, _) => "guide ",
            Failure::SetupFile(_) => "setup file",
            Failure::CountersFile(_) => "counters file",
            Failure::Setup(_) => "setup",
            Failure::Input => "input",
            Failure::InputTooLong => "input too long",
            Failure::Output(_) => "output ",
            Failure::Stdout => "output stdout",
            Failure::Memory => "memory",
            Failure::Thread => "thread",
        }
    }

    fn name(&self) -> &[u8]
        ensures { result.now ≡ name_of self.now }
    {
        match self {
            Failure::Guide(path, _) => path.as_bytes(),
            Failure::Output(name) => name.as_slice(),
            _ => b"",
        }
    }

    fn print_number<E: Write>(&self, err: &mut E) -> io::Result<()>
        ensures { OnOk result (Appends (E.contents err.old) (E.contents err.new) (number_of self.now)) }
    {
        match self {
            Failure::Guide(_, refusal) => print_guide_number(refusal, err),
            Failure::SetupFile(refusal) => print_spaced(file_number(refusal), err),
            Failure::CountersFile(refusal) => print_spaced(file_number(refusal), err),
            Failure::Setup(refusal) => print_spaced(refusal.number(), err),
            _ => Ok(()),
        }
    }

    /// The status that a program ends with which fails so.
    pub fn status(&self) -> u8
        ensures { result ≡ status_of self.now }
    {
        match self {
            Failure::Usage => 2,
            Failure::Guide(_, _)
            | Failure::SetupFile(_)
            | Failure::CountersFile(_)
            | Failure::Setup(_) => 3,
            Failure::Input | Failure::InputTooLong => 4,
            Failure::Output(_) | Failure::Stdout => 5,
            Failure::Memory | Failure::Thread => 6,
        }
    }
}

fn print_decimal<E: Write>(number: u32, err: &mut E) -> io::Result<()>
    ensures { OnOk result (Appends (E.contents err.old) (E.contents err.new) (decimal number)) }
{
    let mut digits = Buffer::new();
    err.write_all(digits.format(number).as_bytes())
}

fn print_spaced<E: Write>(number: u32, err: &mut E) -> io::Result<()>
    ensures { OnOk result (Appends (E.contents err.old) (E.contents err.new) (number_text number)) }
{
    err.write_all(b" ")?;
    print_decimal(number, err)
}

fn print_guide_number<E: Write>(refusal: &Option<GuideFileFault>, err: &mut E) -> io::Result<()>
    ensures { OnOk result (Appends (E.contents err.old) (E.contents err.new)
        (number_text (guide_file_number refusal.now) ++ own_number refusal.now)) }
{
    print_spaced(guide_file_number(refusal), err)?;
    print_own_number(refusal, err)
}

/// The number of the guide's own fault, where the file's refusal is one.
fn print_own_number<E: Write>(refusal: &Option<GuideFileFault>, err: &mut E) -> io::Result<()>
    ensures { OnOk result (Appends (E.contents err.old) (E.contents err.new) (own_number refusal.now)) }
{
    match refusal {
        Some(GuideFileFault::Guide(own)) => {
            err.write_all(b".")?;
            print_decimal(own.number(), err)
        }
        _ => Ok(()),
    }
}

fn guide_file_number(refusal: &Option<GuideFileFault>) -> u32
    ensures { result ≡ guide_file_number refusal.now }
{
    match refusal {
        None => 0,
        Some(refusal) => refusal.number(),
    }
}

fn file_number(refusal: &Option<FileFault>) -> u32
    ensures { result ≡ file_number refusal.now }
{
    match refusal {
        None => 0,
        Some(refusal) => refusal.number(),
    }
}

impl<'a> From<AllocError> for Failure<'a> {
    ghost use Rattle.night_command.specs.declared.failure.Failure.TheVariants.{Memory};

    ghost from_gives = { λ _ failure. failure ≡ Memory };

    fn from(_error: AllocError) -> Failure<'a> {
        Failure::Memory
    }
}

impl<'a> From<NoMemory> for Failure<'a> {
    ghost use Rattle.night_command.specs.declared.failure.Failure.TheVariants.{Memory};

    ghost from_gives = { λ _ failure. failure ≡ Memory };

    fn from(_error: NoMemory) -> Failure<'a> {
        Failure::Memory
    }
}

impl<'a, T: Drop> From<AllocFailed<T>> for Failure<'a> {
    ghost use Rattle.night_command.specs.declared.failure.Failure.TheVariants.{Memory};

    ghost from_gives = { λ _ failure. failure ≡ Memory };

    fn from(_error: AllocFailed<T>) -> Failure<'a> {
        Failure::Memory
    }
}

impl<'a> From<PutFault> for Failure<'a> {
    ghost use Rattle.std.specs.Prelude.{◌≡◌};
    ghost use Rattle.night_command.specs.Failure.{put_failure};

    ghost from_gives = { λ error failure. failure ≡ put_failure error };

    fn from(error: PutFault) -> Failure<'a> {
        match error {
            PutFault::Output(name) => Failure::Output(name),
            PutFault::NoMemory => Failure::Memory,
        }
    }
}

impl<'a> From<RunFault> for Failure<'a> {
    ghost use Rattle.std.specs.Prelude.{◌≡◌};
    ghost use Rattle.night_command.specs.Failure.{run_failure};

    ghost from_gives = { λ error failure. failure ≡ run_failure error };

    fn from(error: RunFault) -> Failure<'a> {
        match error {
            RunFault::InputTooLong => Failure::InputTooLong,
            RunFault::NoMemory => Failure::Memory,
            RunFault::NoThread => Failure::Thread,
            RunFault::Read => Failure::Input,
        }
    }
}
