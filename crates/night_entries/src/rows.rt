ghost use Rattle.std.specs.Prelude.{◌≡◌, ◌++◌, ◌∷◌, ℕ, List, IfOk, map, option_map};
ghost use Rattle.night_entries.specs.Named.{found_in};
ghost use Rattle.night_entries.specs.Rows as rows;
ghost use Rattle.partner_setup.specs.declared.rows.CounterRow.{CounterRow};

use crate::named::{by_name, find};
use hub_kinds::{Counters, Items, NoMemory, Text, copy_text};
use hub_ledger::AddressNumbers;
use partner_setup::{CounterRow, PartnerRow};
use std::alloc::Global;
use std::collections::BTreeMap;

/// The counters of a row, or else other ones.
fn numbers_or(row: Option<&CounterRow>, other: Counters) -> Counters
    ensures { result ≡ rows.numbers_or (option_map (λ r. r.now) row.entry) other }
{
    match row {
        None => other,
        Some(row) => row.counters,
    }
}

/// A qualifier and an id, with a space between them.
fn address_of(alloc: Global, partner: &PartnerRow) -> Result<Text, NoMemory>
    ensures { IfOk result (λ address. address ≡ rows.address_of partner.now) }
{
    let mut address = Vec::from_slice(alloc, partner.qualifier.as_slice())?;
    address.push(b' ')?;
    address.extend_from_slice(partner.id.as_slice())?;
    Ok(Items::from_vec(address))
}

/// The row of a partner.
fn row_of<'a>(
    alloc: Global,
    begun: &BTreeMap<&'a [u8], &'a CounterRow>,
    left: &BTreeMap<&'a [u8], &'a CounterRow>,
    partner: &PartnerRow,
) -> Result<AddressNumbers, NoMemory>
    ensures { IfOk result (λ row. row ≡ rows.row_by (found_in begun.now) (found_in left.now) partner.now) }
{
    let name = partner.name.as_slice();
    let first = numbers_or(
        find(begun, name),
        Counters {
            interchange: 1,
            group: 1,
            set: 1,
        },
    );
    Ok(AddressNumbers {
        partner: copy_text(alloc, name)?,
        address: address_of(alloc, partner)?,
        begun: first,
        left: numbers_or(find(left, name), first),
    })
}

/// The rows of partners, by the counters that the night begins with and those that it leaves.
fn rows_by<'a>(
    alloc: Global,
    partners: &[PartnerRow],
    begun: &BTreeMap<&'a [u8], &'a CounterRow>,
    left: &BTreeMap<&'a [u8], &'a CounterRow>,
) -> Result<Vec<AddressNumbers>, NoMemory>
    ensures { IfOk result (λ list. list.items ≡ map (rows.row_by (found_in begun.now) (found_in left.now)) partners.now) }
{
    let mut list = Vec::new(alloc);
    for i in 0..partners.len() {
        list.push(row_of(alloc, begun, left, &partners[i])?)?;
    }
    Ok(list)
}

/// The numbers of partners in a night.
pub(crate) fn address_rows(
    alloc: Global,
    partners: &[PartnerRow],
    begun: &[CounterRow],
    left: &[CounterRow],
) -> Result<Vec<AddressNumbers>, NoMemory>
    ensures { IfOk result (λ list. list.items ≡ rows.address_rows begun.now left.now partners.now) }
{
    let begun = by_name(alloc, begun)?;
    let left = by_name(alloc, left)?;
    rows_by(alloc, partners, &begun, &left)
}
