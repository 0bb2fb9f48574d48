ghost use Rattle.std.specs.Prelude.{◌≡◌, IfErr, IfOk};
ghost use Rattle.hub_folder.specs.Failure.{IsBefore};
ghost use Rattle.hub_night.specs.Night.{AreTablesOf};
ghost use Rattle.kept_files.specs.Addresses.{IsNextOf};
ghost use Rattle.kept_files.specs.Taken.{taken_of};
ghost use Rattle.night_record.specs.Tables.{addresses_text, taken_text};

use crate::made::table_files;
use hub_folder::Failure;
use hub_kinds::{Items, NoMemory, Text};
use kept_files::{next_addresses, taken_of};
use night_record::{AddressNext, TableFault, append_addresses, append_taken};
use night_shelf::NightFile;
use std::alloc::Global;

/// The table of the interchanges of which a set was delivered.
fn taken_table(alloc: Global, delivered: &[Text]) -> Result<Text, NoMemory>
    ensures { IfOk result (λ table. table ≡ taken_text (taken_of delivered.now)) }
{
    let mut table = Vec::new(alloc);
    let taken = taken_of(alloc, delivered)?;
    append_taken(&mut table, taken.as_slice())?;
    Ok(Items::from_vec(table))
}

fn failure_of(fault: TableFault) -> Failure
    ensures { IsBefore result }
{
    match fault {
        TableFault::Memory => Failure::Memory,
        _ => Failure::Record,
    }
}

/// The numbers that come next for each address after tonight.
fn addresses_after(
    alloc: Global,
    older: &[AddressNext],
    left: &[AddressNext],
) -> Result<Vec<AddressNext>, Failure>
    ensures next { IfOk result (λ list. IsNextOf older.now left.now list.items) }
    ensures before { IfErr result IsBefore }
{
    match next_addresses(alloc, older, left) {
        Ok(list) => Ok(list),
        Err(fault) => Err(failure_of(fault)),
    }
}

/// The table of all addresses.
fn address_table(alloc: Global, list: &[AddressNext]) -> Result<Text, Failure>
    ensures table { IfOk result (λ table. table ≡ addresses_text list.now) }
    ensures before { IfErr result IsBefore }
{
    let mut table = Vec::new(alloc);
    match append_addresses(alloc, &mut table, list) {
        Ok(()) => Ok(Items::from_vec(table)),
        Err(fault) => Err(failure_of(fault)),
    }
}

/// The tables of a night that delivered sets of the keys `delivered`.
pub(crate) fn tables_of(
    alloc: Global,
    track: Text,
    delivered: &[Text],
    older: &[AddressNext],
    left: &[AddressNext],
) -> Result<Vec<NightFile>, Failure>
    ensures tables { IfOk result (λ tables. AreTablesOf track delivered.now older.now left.now tables.items) }
    ensures before { IfErr result IsBefore }
{
    let taken = taken_table(alloc, delivered)?;
    let list = addresses_after(alloc, older, left)?;
    let addresses = address_table(alloc, list.as_slice())?;
    let tables = table_files(alloc, track, taken, addresses)?;
    Ok(tables)
}
