ghost use Rattle.std.specs.Prelude.{◌≡◌, ◌⊎◌, OnOk};
ghost use Rattle.std.specs.Io.KnownBytes.{Appends};
ghost use Rattle.learn_command.specs.Failure.{line_of, status_of};

use hub_kinds::{NoMemory, Text};
use program_frame::Reported;
use std::alloc::AllocError;
use std::io::Write;
use system_io::print_text;

/// Why a run failed.
#[derive(Debug, Drop)]
pub enum Failure {
    /// No guide was learned, as this line says.
    NoGuide(Text),
    /// A guide that is said to be known is refused or can't be read, as this line says.
    Known(Text),
    /// A sample file can't be read or has no interchange, as this line says.
    Sample(Text),
    /// Memory was refused.
    Memory,
}

impl Failure {
    /// Prints the failure's line, and gives the status that the program ends with, and whether it is printed. A fault of standard
    /// error changes no status.
    pub fn report<E: Write>(&self, err: &mut E) -> Reported
        ensures status { result.status ≡ status_of self.now }
        ensures values { (result.status ≡ 1) ⊎ ((result.status ≡ 3) ⊎ ((result.status ≡ 4) ⊎ (result.status ≡ 6))) }
        ensures printed { OnOk result.printed (Appends (E.contents err.old) (E.contents err.new) (line_of self.now)) }
    {
        Reported {
            printed: print_text(self.line(), err),
            status: self.status(),
        }
    }

    fn line(&self) -> &[u8]
        ensures { result.now ≡ line_of self.now }
    {
        match self {
            Failure::NoGuide(line) => line.as_slice(),
            Failure::Known(line) => line.as_slice(),
            Failure::Sample(line) => line.as_slice(),
            Failure::Memory => b"nighthub_learn: memory\n",
        }
    }

    fn status(&self) -> u8
        ensures status { result ≡ status_of self.now }
        ensures values { (result ≡ 1) ⊎ ((result ≡ 3) ⊎ ((result ≡ 4) ⊎ (result ≡ 6))) }
    {
        match self {
            Failure::NoGuide(_) => 1,
            Failure::Known(_) => 3,
            Failure::Sample(_) => 4,
            Failure::Memory => 6,
        }
    }
}

impl From<AllocError> for Failure {
    ghost use Rattle.std.specs.Prelude.{◌≡◌};
    ghost use Rattle.learn_command.specs.declared.failure.Failure.TheVariants.{Memory};

    ghost from_gives = { λ _ failure. failure ≡ Memory };

    fn from(_error: AllocError) -> Failure {
        Failure::Memory
    }
}

impl From<NoMemory> for Failure {
    ghost use Rattle.std.specs.Prelude.{◌≡◌};
    ghost use Rattle.learn_command.specs.declared.failure.Failure.TheVariants.{Memory};

    ghost from_gives = { λ _ failure. failure ≡ Memory };

    fn from(_error: NoMemory) -> Failure {
        Failure::Memory
    }
}
