ghost use Rattle.std.specs.Prelude.{◌≡◌};
ghost use Rattle.std.specs.Ordering.{nat_cmp};
ghost use Rattle.std.specs.Cmp.Lexicographic.{slice_cmp};
ghost use Rattle.hub_kinds.specs.Place.{place_key};

use std::cmp::Ordering;

/// A place of the index: an interchange of the text, a functional group in it, a transaction set in
/// that, each counted from 1; 0 for none.
#[derive(Clone, Copy, Debug, PartialEq, Eq)]
pub struct Place {
    /// The interchange's number in the text.
    pub isa: u32,
    /// The group's number in the interchange.
    pub gs: u32,
    /// The set's number in the group.
    pub st: u32,
}

/// Which of two places comes first in the text: by interchange, group and set (own). What has no
/// group or no set comes before what has one.
pub fn place_order(a: Place, b: Place) -> Ordering
    ensures { result ≡ slice_cmp nat_cmp (place_key a) (place_key b) }
{
    [a.isa, a.gs, a.st].cmp(&[b.isa, b.gs, b.st])
}
