ghost use Rattle.std.specs.Prelude.{◌≡◌, ◌++◌, OnOk};
ghost use Rattle.guide_widening.specs.Changes.{said};

use crate::difference::{At, Change, Difference, Key, Value};
use hub_kinds::NoMemory;

/// Adds a difference at `at` of `key` from `old` to `new`, if there is a `change`.
pub(crate) fn push(
    found: &mut Vec<Difference>,
    at: At,
    key: Key,
    change: Option<Change>,
    old: Value,
    new: Value,
) -> Result<(), NoMemory>
    ensures { OnOk result (found.new.items ≡ found.old.items ++ said at key change old new) }
{
    if let Some(change) = change {
        found.push(Difference {
            at,
            key,
            change,
            old,
            new,
        })?;
    }
    Ok(())
}
