ghost use Rattle.std.specs.Prelude.{◌≡◌, ◌++◌, ◌∷◌, [], IfOk, List, OnOk, map};
ghost use Rattle.hub_ledger.specs.declared.entry.NightEntry.{NightEntry};
ghost use Rattle.night_record.specs.Tables.{address_of};
ghost use Rattle.archived_nights.specs.Archive as archive;

use crate::fault::MakeFault;
use hub_kinds::{Items, NoMemory, Text, copy_text};
use hub_ledger::{AddressNumbers, NightEntry};
use kept_files::next_addresses;
use night_record::{AddressNext, TableFault};
use std::alloc::Global;

/// The qualifier and the id of `next`, with a space between them.
pub(crate) fn address_of(alloc: Global, next: &AddressNext) -> Result<Text, NoMemory>
    ensures { IfOk result (λ address. address ≡ address_of next.now) }
{
    let mut address = Vec::from_slice(alloc, next.qualifier.as_slice())?;
    address.push(b' ')?;
    address.extend_from_slice(next.id.as_slice())?;
    Ok(Items::from_vec(address))
}

/// How many bytes `address` has before its first space.
fn qualifier_length(address: &[u8]) -> usize {
    address.iter().position(|byte| *byte == b' ').unwrap_or(0)
}

/// The qualifier and the id of `row`, and the numbers that it leaves.
fn parts_of(alloc: Global, row: &AddressNumbers) -> Result<AddressNext, NoMemory>
    ensures { IfOk result (λ next. next.next ≡ row.now.left) }
{
    let address = row.address.as_slice();
    let end = qualifier_length(address);
    let qualifier = address.get(..end).unwrap_or(b"");
    let id = address.get(end.saturating_add(1)..).unwrap_or(b"");
    Ok(AddressNext {
        qualifier: copy_text(alloc, qualifier)?,
        id: copy_text(alloc, id)?,
        next: row.left,
    })
}

/// What comes next for the address of `row`. Errors: the address isn't a qualifier and an id; or out of memory.
fn next_of(alloc: Global, row: &AddressNumbers) -> Result<AddressNext, MakeFault>
    ensures address { IfOk result (λ next. address_of next ≡ row.now.address) }
    ensures left { IfOk result (λ next. next.next ≡ row.now.left) }
{
    let next = parts_of(alloc, row)?;
    let address = address_of(alloc, &next)?;
    if address.as_slice() == row.address.as_slice() {
        Ok(next)
    } else {
        Err(MakeFault::Unwritable)
    }
}

fn push(list: &mut Vec<AddressNext>, next: AddressNext) -> Result<(), NoMemory>
    ensures { OnOk result (list.new.items ≡ list.old.items ++ next ∷ []) }
{
    list.push(next)?;
    Ok(())
}

/// What comes next for the address of each of `rows`.
fn next_rows(alloc: Global, rows: &[AddressNumbers]) -> Result<Vec<AddressNext>, MakeFault>
    ensures addresses { IfOk result (λ list. map address_of list.items ≡ map archive.address_in rows.now) }
    ensures left { IfOk result (λ list. map archive.next_in list.items ≡ map archive.left_by rows.now) }
{
    let mut list = Vec::new(alloc);
    for i in 0..rows.len() {
        push(&mut list, next_of(alloc, &rows[i])?)?;
    }
    Ok(list)
}

fn fault_of(fault: TableFault) -> MakeFault {
    match fault {
        TableFault::Memory => MakeFault::Memory,
        _ => MakeFault::Unwritable,
    }
}

/// What comes next for each address after `night`, by `older`, what came next before it.
fn after_night(
    alloc: Global,
    older: &[AddressNext],
    night: &NightEntry,
) -> Result<Vec<AddressNext>, MakeFault>
    ensures { IfOk result (λ list. (nights : List NightEntry) → archive.AreLeft nights older.now
        → archive.AreLeft (night.now ∷ nights) list.items) }
{
    let tonight = next_rows(alloc, night.addresses.as_slice())?;
    match next_addresses(alloc, older, tonight.as_slice()) {
        Ok(list) => Ok(list),
        Err(fault) => Err(fault_of(fault)),
    }
}

/// What comes next for each address after `nights`, the oldest of which comes first.
pub(crate) fn next_after(
    alloc: Global,
    nights: &[NightEntry],
) -> Result<Vec<AddressNext>, MakeFault>
    ensures { IfOk result (λ list. archive.AreLeft (archive.newest_first nights.now) list.items) }
{
    let mut list = Vec::new(alloc);
    for i in 0..nights.len() {
        list = after_night(alloc, list.as_slice(), &nights[i])?;
    }
    Ok(list)
}
