ghost use Rattle.std.specs.Prelude.{◌≡◌, ℕ, List, IfOk, map, reverse, unwrap_or};
ghost use Rattle.std.specs.Option.{option_or};
ghost use Rattle.hub_tonight.specs.Begun as begun;
ghost use Rattle.hub_tonight.specs.Numbers.{numbers_in, row_by};
ghost use Rattle.night_entries.specs.Rows as rows;

use crate::numbers::{add_numbers, numbers_of};
use hub_kinds::{Counters, Items, NoMemory, Text, copy_text};
use hub_ledger::NightEntry;
use partner_setup::{CounterRow, PartnerRow};
use std::alloc::Global;
use std::collections::BTreeMap;

/// The numbers that nights left each address with, by the last night that knows it. The oldest night comes first.
fn left_numbers<'a>(
    alloc: Global,
    nights: &'a [NightEntry],
) -> Result<BTreeMap<&'a [u8], Counters>, NoMemory>
    ensures { IfOk result (λ map. (q : List ℕ) → numbers_in map q ≡ begun.numbers_left (reverse nights.entry.now) q) }
{
    let mut map = BTreeMap::new(alloc);
    for i in 0..nights.len() {
        add_numbers(&mut map, nights[i].addresses.as_slice())?;
    }
    Ok(map)
}

/// The numbers of each name in a first counters file.
fn first_numbers<'a>(
    alloc: Global,
    first: &'a [CounterRow],
) -> Result<BTreeMap<&'a [u8], Counters>, NoMemory>
    ensures { IfOk result (λ map. (q : List ℕ) → numbers_in map q ≡ begun.numbers_first first.entry.now q) }
{
    let mut map = BTreeMap::new(alloc);
    add_numbers(&mut map, first)?;
    Ok(map)
}

/// A qualifier and an id, with a space between them.
fn address_of(alloc: Global, partner: &PartnerRow) -> Result<Text, NoMemory>
    ensures { IfOk result (λ address. address ≡ rows.address_of partner.now) }
{
    let mut address = Vec::from_slice(alloc, partner.qualifier.as_slice())?;
    address.push(b' ')?;
    address.extend_from_slice(partner.id.as_slice())?;
    Ok(Items::from_vec(address))
}

/// The numbers that were left, or else those of the first file, or else 1, 1 and 1.
fn numbers_from(left: Option<Counters>, first: Option<Counters>) -> Counters
    ensures { result ≡ unwrap_or (option_or left first) rows.first_numbers }
{
    left.or(first).unwrap_or(Counters {
        interchange: 1,
        group: 1,
        set: 1,
    })
}

/// The row of a partner.
fn begun_row(
    alloc: Global,
    left: &BTreeMap<&[u8], Counters>,
    first: &BTreeMap<&[u8], Counters>,
    partner: &PartnerRow,
) -> Result<CounterRow, NoMemory>
    ensures { IfOk result (λ row. row ≡ row_by (numbers_in left.now) (numbers_in first.now) partner.now) }
{
    let address = address_of(alloc, partner)?;
    let name = partner.name.as_slice();
    Ok(CounterRow {
        partner: copy_text(alloc, name)?,
        counters: numbers_from(
            numbers_of(left, address.as_slice()),
            numbers_of(first, name),
        ),
    })
}

/// The rows of partners, by the numbers that their addresses were left with and those that their names begin with.
fn begun_rows(
    alloc: Global,
    partners: &[PartnerRow],
    left: &BTreeMap<&[u8], Counters>,
    first: &BTreeMap<&[u8], Counters>,
) -> Result<Vec<CounterRow>, NoMemory>
    ensures { IfOk result (λ list. list.items ≡ map (row_by (numbers_in left.now) (numbers_in first.now)) partners.now) }
{
    let mut list = Vec::new(alloc);
    for i in 0..partners.len() {
        list.push(begun_row(alloc, left, first, &partners[i])?)?;
    }
    Ok(list)
}

/// The counters that a night begins with, a row for each of `partners`: its address continues where the last of `nights` that knows it
/// left it, whatever its partner was called then. An address that no night knows begins with the numbers that `first` has under its
/// partner's name, or else with 1, 1 and 1. The oldest of `nights` comes first. The only error is out of memory.
/// X12.5, ISA13; X12.6, GS06 and ST02.
pub fn begun_counters(
    alloc: Global,
    partners: &[PartnerRow],
    nights: &[NightEntry],
    first: &[CounterRow],
) -> Result<Vec<CounterRow>, NoMemory>
    ensures { IfOk result (λ list. list.items ≡ map (begun.begun_row (reverse nights.now) first.now) partners.now) }
{
    let left = left_numbers(alloc, nights)?;
    let first = first_numbers(alloc, first)?;
    begun_rows(alloc, partners, &left, &first)
}
