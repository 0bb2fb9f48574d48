use hub_kinds::NoMemory;

/// Why a text isn't read as acknowledgments.
#[derive(Clone, Copy, Debug, PartialEq, Eq)]
pub enum ReadFault {
    /// It doesn't begin with the header of an interchange.
    NoHeader,
    /// It reports nothing: it has no TA1, and no IK5 or AK9 of a 999.
    TellsNothing,
    /// Memory was asked for and refused.
    NoMemory,
}

impl From<NoMemory> for ReadFault {
    ghost use Rattle.std.specs.Prelude.{◌≡◌};
    ghost use Rattle.ack_read.specs.declared.fault.ReadFault.TheVariants.{NoMemory};

    ghost from_gives = { λ _ fault. fault ≡ NoMemory };

    fn from(_error: NoMemory) -> ReadFault {
        ReadFault::NoMemory
    }
}
