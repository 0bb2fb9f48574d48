ghost use Rattle.std.specs.Prelude.{◌≡◌, ℕ, List, OnOk, option_map};
ghost use Rattle.std.specs.Option.{option_or};
ghost use Rattle.hub_kinds.specs.declared.counters.Counters.{Counters};
ghost use Rattle.hub_tonight.specs.Numbers.{numbers_in};
ghost use Rattle.night_entries.specs.Named.{named};

use hub_kinds::{Counters, NoMemory};
use hub_ledger::AddressNumbers;
use partner_setup::CounterRow;
use std::collections::BTreeMap;

/// A row of numbers.
pub(crate) trait Numbered {
    /// What the numbers are of.
    ghost key: { Self → List ℕ };

    /// The numbers.
    ghost numbers: { Self → Counters };

    /// What the numbers are of.
    fn key(&self) -> &[u8]
        ensures { result.now ≡ key self.now };

    /// The numbers.
    fn numbers(&self) -> Counters
        ensures { result ≡ numbers self.now };
}

/// The numbers that a night left an address with.
impl Numbered for AddressNumbers {
    ghost key = { λ row. row.address };

    ghost numbers = { λ row. row.left };

    fn key(&self) -> &[u8] {
        self.address.as_slice()
    }

    fn numbers(&self) -> Counters {
        self.left
    }
}

/// The numbers that a partner begins with.
impl Numbered for CounterRow {
    ghost key = { λ row. row.partner };

    ghost numbers = { λ row. row.counters };

    fn key(&self) -> &[u8] {
        self.partner.as_slice()
    }

    fn numbers(&self) -> Counters {
        self.counters
    }
}

/// Adds the numbers of `rows`. The last row of a key counts.
pub(crate) fn add_numbers<'a, T: Numbered>(
    map: &mut BTreeMap<&'a [u8], Counters>,
    rows: &'a [T],
) -> Result<(), NoMemory>
    ensures { OnOk result ((q : List ℕ) → numbers_in map.new q
        ≡ option_or (option_map T.numbers (named T.key q rows.entry.now)) (numbers_in map.old q)) }
{
    for i in 0..rows.len() {
        let row = &rows[i];
        map.insert(row.key(), row.numbers())?;
    }
    Ok(())
}

/// The numbers of a key.
pub(crate) fn numbers_of(map: &BTreeMap<&[u8], Counters>, key: &[u8]) -> Option<Counters>
    ensures { result ≡ numbers_in map.now key.now }
{
    map.get(key).copied()
}
