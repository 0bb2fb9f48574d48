use hub_kinds::NoMemory;
use std::alloc::{AllocError, AllocFailed};
use stream_read::StreamFault;

/// Why files aren't gathered on.
#[derive(Clone, Copy, Debug, PartialEq, Eq)]
pub enum GatherFault {
    /// The reader of a file failed, or was interrupted too often.
    Read,
    /// A file has more than 4,294,967,295 bytes.
    TooLong,
    /// The writer failed.
    Output,
    /// Memory was asked for and refused.
    NoMemory,
}

impl From<StreamFault> for GatherFault {
    ghost use Rattle.std.specs.Prelude.{◌≡◌};
    ghost use Rattle.gather_files.specs.Gathering.{stream_fault};

    ghost from_gives = { λ error fault. fault ≡ stream_fault error };

    fn from(error: StreamFault) -> GatherFault {
        match error {
            StreamFault::InputTooLong => GatherFault::TooLong,
            StreamFault::NoMemory => GatherFault::NoMemory,
            StreamFault::Read => GatherFault::Read,
        }
    }
}

impl From<NoMemory> for GatherFault {
    ghost use Rattle.std.specs.Prelude.{◌≡◌};
    ghost use Rattle.gather_files.specs.declared.fault.GatherFault.TheVariants.{NoMemory};

    ghost from_gives = { λ _ fault. fault ≡ NoMemory };

    fn from(_error: NoMemory) -> GatherFault {
        GatherFault::NoMemory
    }
}

impl From<AllocError> for GatherFault {
    ghost use Rattle.std.specs.Prelude.{◌≡◌};
    ghost use Rattle.gather_files.specs.declared.fault.GatherFault.TheVariants.{NoMemory};

    ghost from_gives = { λ _ fault. fault ≡ NoMemory };

    fn from(_error: AllocError) -> GatherFault {
        GatherFault::NoMemory
    }
}

impl<T: Drop> From<AllocFailed<T>> for GatherFault {
    ghost use Rattle.std.specs.Prelude.{◌≡◌};
    ghost use Rattle.gather_files.specs.declared.fault.GatherFault.TheVariants.{NoMemory};

    ghost from_gives = { λ _ fault. fault ≡ NoMemory };

    fn from(_error: AllocFailed<T>) -> GatherFault {
        GatherFault::NoMemory
    }
}
