ghost use Rattle.std.specs.Prelude.{◌≡◌};
ghost use Rattle.hub_kinds.specs.Twice.{has_twice};

use crate::rising::Keyed;

/// Whether two of some values have one key.
pub fn has_twice<T: Keyed + Drop>(values: Vec<T>) -> bool
    ensures { result ≡ has_twice T.key values.items }
{
    let mut values = values;
    values.sort_unstable_by(|a, b| a.order(b));
    !values.as_slice().is_sorted_by(|a, b| a.order(b).is_lt())
}
