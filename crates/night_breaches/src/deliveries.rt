ghost use Rattle.std.specs.Prelude.{◌≡◌, ℕ, List, IfOk, reverse};
ghost use Rattle.hub_ledger.specs.declared.entry.NightEntry.{NightEntry};
ghost use Rattle.night_breaches.specs.Deliveries.{AreDeliveries, first_delivery};

use crate::known::{add_keys, night_with};
use hub_kinds::{Lent, NoMemory, Text};
use hub_ledger::NightEntry;
use std::alloc::Global;
use std::collections::BTreeMap;

/// The newest night that delivered each set.
#[derive(Drop)]
pub struct Deliveries<'a> {
    /// The name of its folder, by the set's key.
    pub nights: BTreeMap<&'a [u8], &'a [u8]>,
}

/// A set that a night delivered.
#[derive(Debug, Drop)]
pub struct Delivery<'k, 'n> {
    /// The set's key.
    pub key: Lent<'k>,
    /// The newest night that did.
    pub night: Lent<'n>,
}

/// The newest of `nights` that delivered each set. The oldest night comes first.
pub fn deliveries_of<'a>(
    alloc: Global,
    nights: &'a [NightEntry],
) -> Result<Deliveries<'a>, NoMemory>
    ensures { IfOk result (AreDeliveries (reverse nights.entry.now)) }
{
    let mut found = BTreeMap::new(alloc);
    for i in 0..nights.len() {
        let night = &nights[i];
        add_keys(
            &mut found,
            night.name.as_slice(),
            night.delivered.as_slice(),
        )?;
    }
    Ok(Deliveries { nights: found })
}

/// The first of the sets `keys` that a night delivered, by what is known of the nights.
pub fn first_delivery<'k, 'n>(found: &Deliveries<'n>, keys: &'k [Text]) -> Option<Delivery<'k, 'n>>
    ensures { (older : List NightEntry) → AreDeliveries older found.now → result ≡ first_delivery older keys.entry.now }
{
    for i in 0..keys.len() {
        let key = keys[i].as_slice();
        if let Some(night) = night_with(&found.nights, key) {
            return Some(Delivery {
                key: Lent::new(key),
                night: Lent::new(night),
            });
        }
    }
    None
}
