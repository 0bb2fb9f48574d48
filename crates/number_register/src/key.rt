ghost use Rattle.number_register.specs.Placing.{IsKeyAt, IsPlaced};

use crate::reading::{group_key, interchange_key, set_key};
use env_index::Index;
use hub_kinds::Place;

/// The number of an interchange, as it is compared: ISA13 as a number, and then ISA05 to ISA08 and ISA13 as they are. The partners
/// of interchanges are often the same, and their numbers seldom.
pub(crate) type InterchangeKey<'a> = (u64, &'a [u8], &'a [u8], &'a [u8], &'a [u8], &'a [u8]);

/// The number of a place, as it is compared: that of an interchange, GS06 as a number, or ST02.
#[derive(Clone, Copy)]
pub(crate) enum Key<'a> {
    OfInterchange(InterchangeKey<'a>),
    OfGroup(u64),
    OfSet(&'a [u8]),
}

/// The number of a place of an index.
pub(crate) fn key_at<'a>(index: &Index<'a>, place: Place) -> Key<'a>
    requires { IsPlaced index.now.entries place }
    ensures { IsKeyAt index.entry.now.entries place result }
{
    let n = place.isa as usize - 1;
    if place.gs == 0 {
        return Key::OfInterchange(interchange_key(index, n));
    }
    let k = place.gs as usize - 1;
    if place.st == 0 {
        return Key::OfGroup(group_key(index, n, k));
    }
    Key::OfSet(set_key(index, n, k, place.st as usize - 1))
}
