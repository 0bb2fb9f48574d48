use crate::interchange::Interchange;
use hub_kinds::InterchangeFault;
use std::marker::Model;

/// An interchange of an index, and its least fault.
#[derive(Drop)]
pub struct IndexedInterchange<'a> {
    pub(crate) interchange: Interchange<'a>,
    pub(crate) fault: Option<InterchangeFault>,
}

impl<'a> Model for IndexedInterchange<'a> {
    ghost use Rattle.env_index.specs.Index.{IndexEntry};

    ghost Value = { IndexEntry };

    ghost view = { λ x. record { interchange = x.interchange; fault = x.fault } };

    ghost use Rattle.env_index.specs.Placed.{AreFew};

    ghost invariant = { λ x. AreFew x.interchange };
}

impl<'a> IndexedInterchange<'a> {
    ghost use Rattle.std.specs.Prelude.{◌≡◌, ◌≤◌, length};
    ghost use Rattle.hub_kinds.specs.declared.limits.TheConstants.{LONGEST_TEXT};

    /// The interchange; its groups can be counted in 32 bits.
    pub fn interchange(&self) -> &Interchange<'a>
        ensures value { result.now ≡ self.now.interchange }
        ensures few { length self.now.interchange.content.groups ≤ LONGEST_TEXT }
    {
        &self.interchange
    }

    /// Its least fault.
    pub fn fault(&self) -> Option<InterchangeFault>
        ensures { result ≡ self.now.fault }
    {
        self.fault
    }
}

/// The index of a text: its interchanges in their order, each with its least fault, and how many bytes are
/// outside of them (X12.5, interchange; own where a header or trailer is missing).
#[derive(Drop)]
pub struct Index<'a> {
    pub(crate) text: &'a [u8],
    pub(crate) interchanges: Vec<IndexedInterchange<'a>>,
    pub(crate) outside: u64,
}

impl<'a> Model for Index<'a> {
    ghost use Rattle.env_index.specs.Index.{IndexValue};

    ghost Value = { IndexValue };

    ghost view = { λ i. record { text = i.text.now; entries = i.interchanges.items; outside = i.outside } };

    ghost use Rattle.std.specs.Prelude.{◌≤◌, length};
    ghost use Rattle.hub_kinds.specs.declared.limits.TheConstants.{LONGEST_TEXT};

    ghost invariant = { λ i. length i.interchanges.items ≤ LONGEST_TEXT };
}

impl<'a> Index<'a> {
    ghost use Rattle.std.specs.Prelude.{◌≡◌, ◌≤◌, length};
    ghost use Rattle.hub_kinds.specs.declared.limits.TheConstants.{LONGEST_TEXT};

    /// The text.
    pub fn text(&self) -> &'a [u8]
        ensures { result.now ≡ self.now.text }
    {
        self.text
    }

    /// Its interchanges, in their order; they can be counted in 32 bits.
    pub fn interchanges(&self) -> &[IndexedInterchange<'a>]
        ensures value { result.now ≡ self.now.entries }
        ensures few { length self.now.entries ≤ LONGEST_TEXT }
    {
        self.interchanges.as_slice()
    }

    /// How many bytes are in no interchange, but for CR, LF and space.
    pub fn outside(&self) -> u64
        ensures { result ≡ self.now.outside }
    {
        self.outside
    }
}
