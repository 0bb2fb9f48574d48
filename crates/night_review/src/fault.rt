use hub_kinds::NoMemory;
use std::alloc::AllocError;

/// Why nights aren't looked at.
#[derive(Clone, Copy, Debug, PartialEq, Eq)]
pub enum ReviewFault {
    /// The folder of all nights can't be listed, or has a name that isn't UTF-8.
    Unlisted,
    /// The clock can't be read.
    Clock,
    /// Memory was refused.
    Memory,
}

impl From<NoMemory> for ReviewFault {
    ghost use Rattle.std.specs.Prelude.{◌≡◌};
    ghost use Rattle.night_review.specs.declared.fault.ReviewFault.TheVariants.{Memory};

    ghost from_gives = { λ _ fault. fault ≡ Memory };

    fn from(_error: NoMemory) -> ReviewFault {
        ReviewFault::Memory
    }
}

impl From<AllocError> for ReviewFault {
    ghost use Rattle.std.specs.Prelude.{◌≡◌};
    ghost use Rattle.night_review.specs.declared.fault.ReviewFault.TheVariants.{Memory};

    ghost from_gives = { λ _ fault. fault ≡ Memory };

    fn from(_error: AllocError) -> ReviewFault {
        ReviewFault::Memory
    }
}
