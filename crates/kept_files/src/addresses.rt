ghost use Rattle.std.specs.Prelude.{◌≡◌, ◌++◌, List, IfErr, IfOk, OnOk, map};
ghost use Rattle.std.specs.Ordering.{eq_by_cmp};
ghost use Rattle.hub_kinds.specs.Rising.{order_by};
ghost use Rattle.std.specs.List.{list_all};
ghost use Rattle.kept_files.specs.Addresses as next;
ghost use Rattle.kept_files.specs.Addressed as addresses;
ghost use Rattle.night_record.specs.Tables as tables;
ghost use Rattle.night_record.specs.Values as values;
ghost use Rattle.night_record.specs.declared.addresses.AddressNext.{AddressNext};

use hub_kinds::{Items, NoMemory, Text, copy_text};
use night_record::{AddressNext, TableFault};
use std::alloc::Global;
use std::cmp::Ordering;

/// A row, with its address as it is compared.
#[derive(Drop)]
pub(crate) struct Addressed {
    address: Text,
    row: AddressNext,
}

/// The qualifier and the id of `row`, with a space between them.
fn address_of(alloc: Global, row: &AddressNext) -> Result<Text, NoMemory>
    ensures { IfOk result (λ address. address ≡ tables.address_of row.now) }
{
    let mut address = Vec::from_slice(alloc, row.qualifier.as_slice())?;
    address.push(b' ')?;
    address.extend_from_slice(row.id.as_slice())?;
    Ok(Items::from_vec(address))
}

fn copy_row(alloc: Global, row: &AddressNext) -> Result<AddressNext, NoMemory>
    ensures { IfOk result (λ copy. copy ≡ row.now) }
{
    Ok(AddressNext {
        qualifier: copy_text(alloc, row.qualifier.as_slice())?,
        id: copy_text(alloc, row.id.as_slice())?,
        next: row.next,
    })
}

fn entry_of(alloc: Global, row: &AddressNext) -> Result<Addressed, NoMemory>
    ensures { IfOk result (λ entry. entry ≡ addresses.entry_of row.now) }
{
    Ok(Addressed {
        address: address_of(alloc, row)?,
        row: copy_row(alloc, row)?,
    })
}

fn push_each(
    alloc: Global,
    entries: &mut Vec<Addressed>,
    rows: &[AddressNext],
) -> Result<(), NoMemory>
    ensures { OnOk result (entries.new.items ≡ entries.old.items ++ map addresses.entry_of rows.now) }
{
    for i in 0..rows.len() {
        entries.push(entry_of(alloc, &rows[i])?)?;
    }
    Ok(())
}

fn by_address(entry: &Addressed, other: &Addressed) -> Ordering
    ensures { result ≡ order_by addresses.address_in entry.now other.now }
{
    entry.address.as_slice().cmp(other.address.as_slice())
}

fn have_one_address(entry: &Addressed, other: &Addressed) -> bool
    ensures { result ≡ eq_by_cmp (order_by addresses.address_in) entry.now other.now }
{
    by_address(entry, other).is_eq()
}

/// The last of `entries` for each address, in the order of bytes of the addresses.
fn newest(entries: Vec<Addressed>) -> Result<Vec<Addressed>, NoMemory>
    ensures { IfOk result (λ list. (of : List AddressNext) → entries.items ≡ map addresses.entry_of of
        → addresses.AreNewest of list.items) }
{
    let mut list = entries;
    list.reverse();
    list.sort_by(|entry, other| by_address(entry, other))?;
    list.dedup_by(|next, kept| have_one_address(next, kept));
    Ok(list)
}

fn is_count(n: u32) -> bool
    ensures { result ≡ values.is_count n }
{
    1 <= n && n <= 999_999_999
}

fn can_count(row: &AddressNext) -> bool
    ensures { result ≡ tables.can_count row.now }
{
    is_count(row.next.interchange) && (is_count(row.next.group) && is_count(row.next.set))
}

fn can_each_count(rows: &[AddressNext]) -> bool
    ensures { result ≡ list_all tables.can_count rows.now }
{
    rows.iter().all(can_count)
}

fn rows_of(alloc: Global, entries: Vec<Addressed>) -> Result<Vec<AddressNext>, NoMemory>
    ensures { IfOk result (λ rows. rows.items ≡ map addresses.row_in entries.items) }
{
    let mut rows = Vec::new(alloc);
    for entry in entries {
        rows.push(entry.row)?;
    }
    Ok(rows)
}

/// The numbers that come next for each address after tonight, by `older`, the table of the night before, and `tonight`, the numbers that
/// tonight left. Errors: a number of the new table isn't 1 to 999,999,999; or out of memory.
pub fn next_addresses(
    alloc: Global,
    older: &[AddressNext],
    tonight: &[AddressNext],
) -> Result<Vec<AddressNext>, TableFault>
    ensures list { IfOk result (λ list. next.IsNextOf older.now tonight.now list.items) }
    ensures refused { IfErr result (next.IsNextFault older.now tonight.now) }
{
    let mut entries = Vec::new(alloc);
    push_each(alloc, &mut entries, older)?;
    push_each(alloc, &mut entries, tonight)?;
    let rows = rows_of(alloc, newest(entries)?)?;
    if can_each_count(rows.as_slice()) {
        Ok(rows)
    } else {
        Err(TableFault::Rows)
    }
}
