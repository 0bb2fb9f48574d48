ghost use Rattle.std.specs.Prelude.{◌≡◌, [], ◌∷◌, ℕ, List, OnOk, option_map, if◌then◌else◌};
ghost use Rattle.std.specs.Option.{option_or};
ghost use Rattle.hub_kinds.specs.Words.{contains_text};
ghost use Rattle.hub_ledger.specs.Entries.{known_row, last_known, row_of};
ghost use Rattle.night_breaches.specs.Known.{Knows, known_of, night_in, row_in};
ghost use Rattle.night_breaches.specs.Breaches.{newest, night_with};
ghost use Rattle.hub_ledger.specs.declared.entry.NightEntry.{NightEntry};

use hub_kinds::{NoMemory, Text};
use hub_ledger::{AddressNumbers, NightEntry};
use std::alloc::Global;
use std::collections::BTreeMap;

/// A row of a night.
#[derive(Clone, Copy)]
pub(crate) struct RowOfNight<'a> {
    pub(crate) night: &'a NightEntry,
    pub(crate) row: &'a AddressNumbers,
}

/// What is known of the nights so far.
#[derive(Drop)]
pub(crate) struct Known<'a> {
    /// The last night that delivered each set, by the set's key.
    pub(crate) nights: BTreeMap<&'a [u8], &'a [u8]>,
    /// The last row of each address.
    pub(crate) rows: BTreeMap<&'a [u8], RowOfNight<'a>>,
    /// The last night.
    pub(crate) before: Option<&'a NightEntry>,
}

/// What is known before the first night.
pub(crate) fn nothing_known<'a>(alloc: Global) -> Known<'a>
    ensures { Knows result [] }
{
    Known {
        nights: BTreeMap::new(alloc),
        rows: BTreeMap::new(alloc),
        before: None,
    }
}

/// The last night that delivered a set.
pub(crate) fn night_with<'a>(nights: &BTreeMap<&'a [u8], &'a [u8]>, key: &[u8]) -> Option<&'a [u8]>
    ensures { option_map (λ night. night.now) result ≡ night_in nights.now key.now }
{
    nights.get(key).copied()
}

/// The last row of an address.
pub(crate) fn row_of<'a>(
    rows: &BTreeMap<&'a [u8], RowOfNight<'a>>,
    address: &[u8],
) -> Option<RowOfNight<'a>>
    ensures { option_map known_of result ≡ row_in rows.now address.now }
{
    rows.get(address).copied()
}

/// Adds the sets that a night delivered.
pub(crate) fn add_keys<'a>(
    nights: &mut BTreeMap<&'a [u8], &'a [u8]>,
    name: &'a [u8],
    keys: &'a [Text],
) -> Result<(), NoMemory>
    ensures { OnOk result ((q : List ℕ) → night_in nights.new q
        ≡ (if contains_text keys.entry.now q then Some name.entry.now else night_in nights.old q)) }
{
    for i in 0..keys.len() {
        nights.insert(keys[i].as_slice(), name)?;
    }
    Ok(())
}

/// Adds the rows of a night.
fn add_rows<'a>(
    rows: &mut BTreeMap<&'a [u8], RowOfNight<'a>>,
    night: &'a NightEntry,
    more: &'a [AddressNumbers],
) -> Result<(), NoMemory>
    ensures { OnOk result ((q : List ℕ) → row_in rows.new q
        ≡ option_or (known_row night.entry.now (row_of q more.entry.now)) (row_in rows.old q)) }
{
    for i in 0..more.len() {
        let row = &more[i];
        rows.insert(row.address.as_slice(), RowOfNight { night, row })?;
    }
    Ok(())
}

/// Adds a night after those so far.
pub(crate) fn add_night<'a>(known: &mut Known<'a>, night: &'a NightEntry) -> Result<(), NoMemory>
    ensures { OnOk result ((older : List NightEntry) → Knows known.old older → Knows known.new (night.entry.now ∷ older)) }
{
    add_keys(
        &mut known.nights,
        night.name.as_slice(),
        night.delivered.as_slice(),
    )?;
    add_rows(&mut known.rows, night, night.addresses.as_slice())?;
    known.before = Some(night);
    Ok(())
}
