ghost use Rattle.std.specs.Prelude.{◌≡◌, ◌++◌, ℕ, List, map, IfOk};
ghost use Rattle.partner_setup.specs.Names.{place_of};
ghost use Rattle.partner_setup.specs.Tables.{KeepsPlaces, sender_key, route_key};

use crate::partner::{Partner, Route};
use hub_kinds::NoMemory;
use std::alloc::Global;
use std::collections::BTreeMap;

/// What is kept in a table by its key.
pub trait Kept {
    /// The key.
    ghost key: { Self → List ℕ };

    /// A copy of the key.
    fn key(&self, alloc: Global) -> Result<Vec<u8>, NoMemory>
        ensures { IfOk result (λ copy. copy.items ≡ key self.now) };
}

impl Kept for Partner {
    ghost key = { sender_key };

    fn key(&self, alloc: Global) -> Result<Vec<u8>, NoMemory> {
        let mut copy = Vec::from_slice(alloc, self.qualifier.as_slice())?;
        copy.extend_from_slice(self.id.as_slice())?;
        Ok(copy)
    }
}

impl Kept for Route {
    ghost key = { route_key };

    fn key(&self, alloc: Global) -> Result<Vec<u8>, NoMemory> {
        Ok(Vec::from_slice(alloc, self.code.as_slice())?)
    }
}

/// The first places of the keys of rows.
pub(crate) fn places_by_key<T: Kept>(
    alloc: Global,
    rows: &[T],
) -> Result<BTreeMap<Vec<u8>, usize>, NoMemory>
    ensures { IfOk result (λ table. KeepsPlaces table 0 (map T.key rows.now)) }
{
    let mut table = BTreeMap::new(alloc);
    for behind in 0..rows.len() {
        let i = rows.len() - 1 - behind;
        let key = rows[i].key(alloc)?;
        table.insert(key, i)?;
    }
    Ok(table)
}

/// The first place of a key.
pub(crate) fn place_in(table: &BTreeMap<Vec<u8>, usize>, key: &[u8]) -> Option<usize>
    ensures { (keys : List (List ℕ)) → KeepsPlaces table.now 0 keys → result ≡ place_of keys key.now }
{
    table.get(key).copied()
}
