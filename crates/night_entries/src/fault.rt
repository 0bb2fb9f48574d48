use csv::{Error, ErrorKind};
use hub_kinds::NoMemory;
use std::alloc::{AllocError, AllocFailed};

/// A file of which a night's entry is made.
#[derive(Clone, Copy, Debug, PartialEq, Eq)]
pub enum Paper {
    Moment,
    Setup,
    Counters,
    NextCounters,
    Sums,
    Track,
    /// The sets that it was asked for again.
    Again,
}

/// Why there isn't an entry.
#[derive(Clone, Copy, Debug, PartialEq, Eq)]
pub enum EntryFault {
    /// This file isn't what a night leaves.
    Unreadable(Paper),
    /// Memory was refused.
    Memory,
}

impl From<NoMemory> for EntryFault {
    ghost use Rattle.std.specs.Prelude.{◌≡◌};
    ghost use Rattle.night_entries.specs.declared.fault.EntryFault.TheVariants.{Memory};

    ghost from_gives = { λ _ fault. fault ≡ Memory };

    fn from(_error: NoMemory) -> EntryFault {
        EntryFault::Memory
    }
}

impl From<AllocError> for EntryFault {
    ghost use Rattle.std.specs.Prelude.{◌≡◌};
    ghost use Rattle.night_entries.specs.declared.fault.EntryFault.TheVariants.{Memory};

    ghost from_gives = { λ _ fault. fault ≡ Memory };

    fn from(_error: AllocError) -> EntryFault {
        EntryFault::Memory
    }
}

impl<T: Drop> From<AllocFailed<T>> for EntryFault {
    ghost use Rattle.std.specs.Prelude.{◌≡◌};
    ghost use Rattle.night_entries.specs.declared.fault.EntryFault.TheVariants.{Memory};

    ghost from_gives = { λ _ fault. fault ≡ Memory };

    fn from(_error: AllocFailed<T>) -> EntryFault {
        EntryFault::Memory
    }
}

impl From<Error> for EntryFault {
    ghost use Rattle.std.specs.Prelude.{◌≡◌};
    ghost use Rattle.csv.specs.Reading.{error_kind};
    ghost use Rattle.night_entries.specs.ReadFault.{table_fault};

    ghost from_gives = { λ error fault. fault ≡ table_fault (error_kind error) };

    fn from(error: Error) -> EntryFault {
        match error.kind() {
            ErrorKind::OutOfMemory | ErrorKind::Io(_) => EntryFault::Memory,
            ErrorKind::Utf8 { .. }
            | ErrorKind::UnequalLengths { .. }
            | ErrorKind::Serialize(_)
            | ErrorKind::Deserialize { .. } => EntryFault::Unreadable(Paper::Track),
        }
    }
}
