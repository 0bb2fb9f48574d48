ghost use Rattle.std.specs.Prelude.{◌≡◌, cond, OnErr, OnOk};
ghost use Rattle.std.specs.BTreeMap.{get, is_at};
ghost use Rattle.number_register.specs.First.{lesser};

use std::alloc::AllocError;
use std::collections::BTreeMap;

/// Keeps the lesser of a key's position and this one. A new key costs one search.
pub(crate) fn note<K: Ord + Copy + Drop>(
    least: &mut BTreeMap<K, usize>,
    key: K,
    position: usize,
) -> Result<(), AllocError>
    ensures ok { OnOk result ((q : _) → get K.cmp least.new q
        ≡ cond (is_at (K.cmp key) q) (lesser position (get K.cmp least.old key)) (get K.cmp least.old q)) }
    ensures err { OnErr result (least.new.entries ≡ least.old.entries) }
{
    if let Some(other) = least.insert(key, position)? {
        if other < position {
            least.insert(key, other)?;
        }
    }
    Ok(())
}
