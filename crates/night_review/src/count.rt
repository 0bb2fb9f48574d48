ghost use Rattle.std.specs.Prelude.{◌≡◌, ◌≤◌, ◌++◌, [], IfOk, OnOk, if◌then◌else◌, map};
ghost use Rattle.night_review.specs.Count as count;

use hub_kinds::NoMemory;
use hub_ledger::{AddressNumbers, NightEntry};
use std::alloc::Global;
use std::collections::BTreeMap;

fn add_addresses<'a>(list: &mut Vec<&'a [u8]>, rows: &'a [AddressNumbers]) -> Result<(), NoMemory>
    ensures { OnOk result (map (λ a. a.now) list.new.items ≡ map (λ a. a.now) list.old.items ++ count.addresses_in rows.entry.now) }
{
    for i in 0..rows.len() {
        list.push(rows[i].address.as_slice())?;
    }
    Ok(())
}

/// The addresses of nights, in their order.
fn addresses_of<'a>(alloc: Global, nights: &'a [NightEntry]) -> Result<Vec<&'a [u8]>, NoMemory>
    ensures { IfOk result (λ list. map (λ a. a.now) list.items ≡ count.addresses_of nights.entry.now) }
{
    let mut list = Vec::new(alloc);
    for i in 0..nights.len() {
        add_addresses(&mut list, nights[i].addresses.as_slice())?;
    }
    Ok(list)
}

fn one_unless(seen: bool) -> u64
    ensures value { result ≡ (if seen then 0 else 1) }
    ensures few { result ≤ 1 }
{
    if seen { 0 } else { 1 }
}

/// How many different texts there are.
fn different(alloc: Global, texts: &[&[u8]]) -> Result<u64, NoMemory>
    ensures { IfOk result (λ n. n ≡ count.different [] (map (λ t. t.now) texts.now)) }
{
    let mut seen = BTreeMap::new(alloc);
    let mut found = 0;
    for i in 0..texts.len() {
        let text = texts[i];
        found += one_unless(seen.contains_key(text));
        seen.insert(text, text)?;
    }
    Ok(found)
}

/// How many addresses nights have.
pub(crate) fn count_addresses(alloc: Global, nights: &[NightEntry]) -> Result<u64, NoMemory>
    ensures { IfOk result (λ n. n ≡ count.different [] (count.addresses_of nights.now)) }
{
    let addresses = addresses_of(alloc, nights)?;
    different(alloc, addresses.as_slice())
}
