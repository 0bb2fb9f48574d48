ghost use Rattle.std.specs.Prelude.{◌≡◌, ℕ, List};

use std::marker::Model;

/// Bytes lent from a text, which contracts see as the list of them.
#[derive(Debug, Drop)]
pub struct Lent<'a> {
    bytes: &'a [u8],
}

impl<'a> Model for Lent<'a> {
    ghost Value = { List ℕ };

    ghost view = { λ l. l.bytes.now };
}

impl<'a> Lent<'a> {
    /// These bytes.
    pub fn new(bytes: &'a [u8]) -> Lent<'a>
        ensures { result ≡ bytes.entry.now }
    {
        Lent { bytes }
    }

    /// The bytes, for as long as their text is lent.
    pub fn bytes(&self) -> &'a [u8]
        ensures { result.now ≡ self.now }
    {
        self.bytes
    }
}
