ghost use Rattle.std.specs.Prelude.{◌≡◌, List, ℕ, IfOk};
ghost use Rattle.std.specs.List.{list_any};
ghost use Rattle.std.specs.Str.{bytes_eq};
ghost use Rattle.hub_kinds.specs.Rising.{IsRisingBy};
ghost use Rattle.night_page.specs.Names as names;

use hub_kinds::{Keyed, Text, in_order};
use std::cmp::Ordering;

/// A text among others that are in the order of bytes.
#[derive(Debug, Drop)]
pub struct Name {
    pub text: Text,
}

impl Keyed for Name {
    ghost use Rattle.night_page.specs.Names.{text_of};

    ghost key = { text_of };

    fn order(&self, other: &Name) -> Ordering {
        self.text.as_slice().cmp(other.text.as_slice())
    }
}

/// The texts in the order of bytes, each once.
pub(crate) fn names_in_order(found: Vec<Name>) -> Vec<Name>
    ensures { names.AreNames (names.texts_of found.items) result.items }
{
    in_order(found)
}

/// Whether `text` is among `all`, which are in the order of bytes.
pub(crate) fn has_name(all: &[Name], text: &[u8]) -> bool
    requires { IsRisingBy names.text_of all.now }
    ensures { result ≡ list_any (bytes_eq text.now) (names.texts_of all.now) }
{
    all.binary_search_by(|name| name.text.as_slice().cmp(text))
        .is_ok()
}
