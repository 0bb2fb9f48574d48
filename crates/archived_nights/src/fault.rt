use hub_kinds::NoMemory;
use std::alloc::AllocError;

/// Why nights aren't archived.
#[derive(Clone, Copy, Debug, PartialEq, Eq)]
pub enum MakeFault {
    /// The key of a set, or an address or its numbers, can't be written down.
    Unwritable,
    /// Memory was refused.
    Memory,
}

/// A file of an archive.
#[derive(Clone, Copy, Debug, PartialEq, Eq)]
pub enum ArchiveFile {
    Moment,
    /// The sums of the two tables.
    Sums,
    /// The table of the sets that were delivered.
    Delivered,
    /// The table of what comes next for each address.
    Addresses,
}

/// Why an archive isn't read.
#[derive(Clone, Copy, Debug, PartialEq, Eq)]
pub enum ArchiveFault {
    /// This file isn't what it must be.
    Wrong(ArchiveFile),
    /// Memory was refused.
    Memory,
}

impl From<NoMemory> for MakeFault {
    ghost use Rattle.std.specs.Prelude.{◌≡◌};
    ghost use Rattle.archived_nights.specs.declared.fault.MakeFault.TheVariants.{Memory};

    ghost from_gives = { λ _ fault. fault ≡ Memory };

    fn from(_error: NoMemory) -> MakeFault {
        MakeFault::Memory
    }
}

impl From<AllocError> for MakeFault {
    ghost use Rattle.std.specs.Prelude.{◌≡◌};
    ghost use Rattle.archived_nights.specs.declared.fault.MakeFault.TheVariants.{Memory};

    ghost from_gives = { λ _ fault. fault ≡ Memory };

    fn from(_error: AllocError) -> MakeFault {
        MakeFault::Memory
    }
}

impl From<NoMemory> for ArchiveFault {
    ghost use Rattle.std.specs.Prelude.{◌≡◌};
    ghost use Rattle.archived_nights.specs.declared.fault.ArchiveFault.TheVariants.{Memory};

    ghost from_gives = { λ _ fault. fault ≡ Memory };

    fn from(_error: NoMemory) -> ArchiveFault {
        ArchiveFault::Memory
    }
}
