ghost use Rattle.std.specs.IoError.{error_kind};
ghost use Rattle.night_command.specs.Outbox.{IsFaultOf, put_fault_number};

use hub_kinds::{NoMemory, Text};
use std::io;

/// Why not all files of a night were put; those before are there.
#[derive(Debug, Drop)]
pub enum PutFault {
    /// The file of this name can't be put.
    Output(Text),
    /// Memory was asked for and refused.
    NoMemory,
}

impl PutFault {
    ghost use Rattle.std.specs.Prelude.{◌≡◌};

    /// Why the file of this name wasn't put, by the error of that: out of memory is never one of the file.
    pub fn of_error(error: io::Error, name: Text) -> PutFault
        ensures { IsFaultOf (error_kind error) name result }
    {
        match error.kind() {
            io::ErrorKind::OutOfMemory => PutFault::NoMemory,
            _ => PutFault::Output(name),
        }
    }

    /// The number of the fault.
    pub fn number(&self) -> u32
        ensures { result ≡ put_fault_number self.now }
    {
        match self {
            PutFault::Output(_) => 1,
            PutFault::NoMemory => 2,
        }
    }
}

impl From<NoMemory> for PutFault {
    ghost use Rattle.std.specs.Prelude.{◌≡◌};
    ghost use Rattle.night_command.specs.declared.put_fault.PutFault.TheVariants.{NoMemory};

    ghost from_gives = { λ _ fault. fault ≡ NoMemory };

    fn from(_error: NoMemory) -> PutFault {
        PutFault::NoMemory
    }
}
