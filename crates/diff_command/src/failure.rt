ghost use Rattle.std.specs.Prelude.{◌≡◌, ◌⊎◌, IfOk, OnOk};
ghost use Rattle.std.specs.Io.KnownBytes.{Appends};
ghost use Rattle.diff_command.specs.Failure.{CantWrite, line_of, status_of};

use file_names::append_shown;
use hub_kinds::{Items, NoMemory, Text};
use program_frame::Reported;
use std::alloc::{AllocError, Global};
use std::io::Write;
use system_io::print_text;

/// Why a run failed.
#[derive(Debug, Drop)]
pub enum Failure {
    /// A guide file is refused or can't be read, as these lines say.
    Guide(Text),
    /// A sample or the folder for samples can't be written, as this line says.
    Output(Text),
    /// Memory was refused.
    Memory,
}

impl Failure {
    /// Prints the failure's lines, and gives the status that the program ends with, and whether they are printed. A fault of standard
    /// error changes no status.
    pub fn report<E: Write>(&self, err: &mut E) -> Reported
        ensures status { result.status ≡ status_of self.now }
        ensures values { (result.status ≡ 3) ⊎ ((result.status ≡ 5) ⊎ (result.status ≡ 6)) }
        ensures printed { OnOk result.printed (Appends (E.contents err.old) (E.contents err.new) (line_of self.now)) }
    {
        Reported {
            printed: print_text(self.line(), err),
            status: self.status(),
        }
    }

    /// The failure of a file or a folder with a name that can't be written.
    pub(crate) fn of_output(alloc: Global, name: &[u8]) -> Result<Failure, NoMemory>
        ensures { IfOk result CantWrite }
    {
        let mut line = Vec::from_slice(alloc, b"nighthub_diff: output ")?;
        append_shown(&mut line, name)?;
        line.push(b'\n')?;
        Ok(Failure::Output(Items::from_vec(line)))
    }

    fn line(&self) -> &[u8]
        ensures { result.now ≡ line_of self.now }
    {
        match self {
            Failure::Guide(lines) => lines.as_slice(),
            Failure::Output(line) => line.as_slice(),
            Failure::Memory => b"nighthub_diff: memory\n",
        }
    }

    fn status(&self) -> u8
        ensures status { result ≡ status_of self.now }
        ensures values { (result ≡ 3) ⊎ ((result ≡ 5) ⊎ (result ≡ 6)) }
    {
        match self {
            Failure::Guide(_) => 3,
            Failure::Output(_) => 5,
            Failure::Memory => 6,
        }
    }
}

impl From<AllocError> for Failure {
    ghost use Rattle.std.specs.Prelude.{◌≡◌};
    ghost use Rattle.diff_command.specs.declared.failure.Failure.TheVariants.{Memory};

    ghost from_gives = { λ _ failure. failure ≡ Memory };

    fn from(_error: AllocError) -> Failure {
        Failure::Memory
    }
}

impl From<NoMemory> for Failure {
    ghost use Rattle.std.specs.Prelude.{◌≡◌};
    ghost use Rattle.diff_command.specs.declared.failure.Failure.TheVariants.{Memory};

    ghost from_gives = { λ _ failure. failure ≡ Memory };

    fn from(_error: NoMemory) -> Failure {
        Failure::Memory
    }
}
