ghost use Rattle.std.specs.Prelude.{◌≡◌, ℕ, List, IfOk, option_map};
ghost use Rattle.night_entries.specs.Named.{found_in, named};

use crate::files::NamedSum;
use hub_kinds::{NoMemory, Text};
use hub_ledger::AddressNumbers;
use partner_setup::CounterRow;
use std::alloc::Global;
use std::collections::BTreeMap;

/// What has a name.
pub(crate) trait Named {
    /// The name.
    ghost name: { Self → List ℕ };

    /// The name.
    fn name(&self) -> &[u8]
        ensures { result.now ≡ name self.now };
}

impl Named for CounterRow {
    ghost name = { λ row. row.partner };

    fn name(&self) -> &[u8] {
        self.partner.as_slice()
    }
}

impl Named for AddressNumbers {
    ghost name = { λ row. row.partner };

    fn name(&self) -> &[u8] {
        self.partner.as_slice()
    }
}

impl Named for NamedSum {
    ghost name = { λ sum. sum.name };

    fn name(&self) -> &[u8] {
        self.name.as_slice()
    }
}

impl Named for Text {
    ghost name = { λ text. text };

    fn name(&self) -> &[u8] {
        self.as_slice()
    }
}

/// The last item of each name.
pub(crate) fn by_name<'a, T: Named>(
    alloc: Global,
    items: &'a [T],
) -> Result<BTreeMap<&'a [u8], &'a T>, NoMemory>
    ensures { IfOk result (λ map. (name : List ℕ) → found_in map name ≡ named T.name name items.entry.now) }
{
    let mut map = BTreeMap::new(alloc);
    for i in 0..items.len() {
        let item = &items[i];
        map.insert(item.name(), item)?;
    }
    Ok(map)
}

/// The last item of a name.
pub(crate) fn find<'a, T>(map: &BTreeMap<&'a [u8], &'a T>, name: &[u8]) -> Option<&'a T>
    ensures { option_map (λ item. item.now) result ≡ found_in map.now name.now }
{
    map.get(name).copied()
}
