ghost use Rattle.std.specs.Prelude.{◌≡◌, ◌+◌, ◌≤◌, length};
ghost use Rattle.mailbox.specs.Kept.{kept_as};

use hub_kinds::Lent;
use std::marker::Model;

/// A delivered set as it was written, with its ST02, and what it has in common with the sets of its group: GS01, GS08 and the text
/// in one row.
#[derive(Drop)]
pub(crate) struct Rendered<'r> {
    bytes: Lent<'r>,
    sender: usize,
    id_len: usize,
    version_len: usize,
}

impl<'r> Model for Rendered<'r> {
    ghost use Rattle.std.specs.Prelude.{◌+◌, ◌≤◌, length};
    ghost use Rattle.mailbox.specs.Kept.{kept_as};
    ghost use Rattle.mailbox.specs.Rendered.{RenderedValue};

    ghost Value = { RenderedValue };

    ghost view = { λ r. kept_as r.bytes r.sender r.id_len r.version_len };

    ghost invariant = { λ r. r.id_len + r.version_len ≤ length r.bytes };
}

impl<'r> Rendered<'r> {
    ghost use Rattle.std.specs.Prelude.{◌≡◌, ◌+◌, ◌≤◌, length};
    ghost use Rattle.mailbox.specs.Kept.{kept_as};

    /// A set that is kept as these bytes.
    pub(crate) fn new(
        bytes: Lent<'r>,
        sender: usize,
        id_len: usize,
        version_len: usize,
    ) -> Rendered<'r>
        requires { id_len + version_len ≤ length bytes }
        ensures { result ≡ kept_as bytes.entry sender id_len version_len }
    {
        Rendered {
            bytes,
            sender,
            id_len,
            version_len,
        }
    }

    /// The sender's place in the setup.
    pub(crate) fn sender(&self) -> usize
        ensures { result ≡ self.now.key.sender }
    {
        self.sender
    }

    /// GS01 of the group that it stood in.
    pub(crate) fn functional_id(&self) -> &[u8]
        ensures { result.now ≡ self.now.key.functional_id }
    {
        &self.bytes.bytes()[..self.id_len]
    }

    /// GS08 of the group that it stood in.
    pub(crate) fn version(&self) -> &[u8]
        ensures { result.now ≡ self.now.key.version }
    {
        let behind = &self.bytes.bytes()[self.id_len..];
        &behind[..self.version_len]
    }

    /// What was written of it.
    pub(crate) fn text(&self) -> &'r [u8]
        ensures { result.now ≡ self.now.text }
    {
        &self.bytes.bytes()[self.id_len + self.version_len..]
    }
}
