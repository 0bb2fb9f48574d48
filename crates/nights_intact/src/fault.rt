use hub_kinds::{NoMemory, Text};

/// Why no night may be added to those of a hub.
#[derive(Debug, Drop)]
pub enum IntactFault {
    /// The file at this path is there, and can't be read.
    Unread(Text),
    /// The night at this path was the last, and isn't there.
    Gone(Text),
    /// The nights aren't what their records say. These lines say why.
    Records(Text),
    /// Memory was refused.
    Memory,
}

impl From<NoMemory> for IntactFault {
    ghost use Rattle.std.specs.Prelude.{◌≡◌};
    ghost use Rattle.nights_intact.specs.declared.fault.IntactFault.TheVariants.{Memory};

    ghost from_gives = { λ _ fault. fault ≡ Memory };

    fn from(_error: NoMemory) -> IntactFault {
        IntactFault::Memory
    }
}
