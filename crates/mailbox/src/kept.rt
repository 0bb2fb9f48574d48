ghost use Rattle.std.specs.Prelude.{◌≡◌};
ghost use Rattle.mailbox.specs.Kept.{StandsIn, kept_in};

use crate::rendered::Rendered;
use hub_kinds::Lent;

/// Where a written set is in a text: from where to where, and of that how many bytes are GS01 and GS08 of its group, one after the
/// other at its front; and the place in the setup of its sender.
#[derive(Clone, Copy, Debug)]
pub(crate) struct Kept {
    /// Its first byte.
    pub(crate) from: usize,
    /// The byte after its last.
    pub(crate) to: usize,
    /// How many bytes GS01 has.
    pub(crate) id_len: usize,
    /// How many bytes GS08 has.
    pub(crate) version_len: usize,
    /// The sender's place in the setup.
    pub(crate) sender: usize,
}

/// A set that is kept in this text.
pub(crate) fn lent_of<'r>(text: &'r [u8], kept: Kept) -> Rendered<'r>
    requires { StandsIn text.now kept }
    ensures { result ≡ kept_in text.entry.now kept }
{
    Rendered::new(
        Lent::new(&text[kept.from..kept.to]),
        kept.sender,
        kept.id_len,
        kept.version_len,
    )
}
