use hub_kinds::NoMemory;

/// Why there is no text of the sets that go in again.
#[derive(Clone, Copy, Debug, PartialEq, Eq)]
pub enum AgainFault {
    /// The table isn't that of the input, or the input is too long.
    Unfit,
    /// Memory was refused.
    Memory,
}

impl From<NoMemory> for AgainFault {
    ghost use Rattle.std.specs.Prelude.{◌≡◌};
    ghost use Rattle.sets_again.specs.declared.fault.AgainFault.TheVariants.{Memory};

    ghost from_gives = { λ _ fault. fault ≡ Memory };

    fn from(_error: NoMemory) -> AgainFault {
        AgainFault::Memory
    }
}
