ghost use Rattle.std.specs.Prelude.{◌≡◌, ◌⊎◌};
ghost use Rattle.std.specs.IoError.{error_kind};
ghost use Rattle.explain_command.specs.Failure.{IsMemoryOr, lead_of};

use crate::ends::{CutOff, SetId};
use ack_read::ReadFault;
use hub_kinds::NoMemory;
use std::alloc::{AllocError, AllocFailed};
use std::io;

/// Why a run failed.
#[derive(Clone, Copy, Debug, PartialEq, Eq)]
pub enum Failure {
    /// The file can't be read.
    Input,
    /// The file doesn't begin with the header of an interchange.
    NoHeader,
    /// The file reports nothing: it has no TA1, and no IK5 or AK9 of a 999.
    TellsNothing,
    /// The file reports nothing, and its first set isn't an acknowledgment.
    OtherSet(SetId),
    /// The file has the response to a set of a 997 (AK5).
    Is997,
    /// The file is cut off.
    CutOff(CutOff),
    /// Memory was refused.
    Memory,
}

impl Failure {
    /// The failure that a fault of the system represents, where it isn't out of memory.
    pub fn of_fault(error: io::Error, other: Failure) -> Failure
        ensures by_kind { IsMemoryOr (error_kind error) other result }
        ensures either { (result ≡ Failure.Memory) ⊎ (result ≡ other) }
    {
        match error.kind() {
            io::ErrorKind::OutOfMemory => Failure::Memory,
            _ => other,
        }
    }

    /// What failed, up to what the file has.
    pub(crate) fn lead(self) -> &'static str
        ensures { result.now ≡ lead_of self }
    {
        match self {
            Failure::Input => "input",
            Failure::NoHeader => "input 1",
            Failure::TellsNothing => "input 2",
            Failure::OtherSet(_) => "ST is ",
            Failure::Is997 => "this is a 997, which is not read here",
            Failure::CutOff(CutOff::InSegment) => "the text ends inside a segment",
            Failure::CutOff(CutOff::In999) => "the text ends inside a 999",
            Failure::Memory => "memory",
        }
    }
}

impl From<AllocError> for Failure {
    ghost use Rattle.std.specs.Prelude.{◌≡◌};
    ghost use Rattle.explain_command.specs.declared.failure.Failure.TheVariants.{Memory};

    ghost from_gives = { λ _ failure. failure ≡ Memory };

    fn from(_error: AllocError) -> Failure {
        Failure::Memory
    }
}

impl From<NoMemory> for Failure {
    ghost use Rattle.std.specs.Prelude.{◌≡◌};
    ghost use Rattle.explain_command.specs.declared.failure.Failure.TheVariants.{Memory};

    ghost from_gives = { λ _ failure. failure ≡ Memory };

    fn from(_error: NoMemory) -> Failure {
        Failure::Memory
    }
}

impl<T: Drop> From<AllocFailed<T>> for Failure {
    ghost use Rattle.std.specs.Prelude.{◌≡◌};
    ghost use Rattle.explain_command.specs.declared.failure.Failure.TheVariants.{Memory};

    ghost from_gives = { λ _ failure. failure ≡ Memory };

    fn from(_error: AllocFailed<T>) -> Failure {
        Failure::Memory
    }
}

impl From<ReadFault> for Failure {
    ghost use Rattle.std.specs.Prelude.{◌≡◌};
    ghost use Rattle.explain_command.specs.Failure.{read_failure};

    ghost from_gives = { λ error failure. failure ≡ read_failure error };

    fn from(error: ReadFault) -> Failure {
        match error {
            ReadFault::NoHeader => Failure::NoHeader,
            ReadFault::TellsNothing => Failure::TellsNothing,
            ReadFault::NoMemory => Failure::Memory,
        }
    }
}
