ghost use Rattle.std.specs.Prelude.{◌≡◌, IfErr, IfOk, map};
ghost use Rattle.night_entries.specs.Again as again;
ghost use Rattle.night_entries.specs.ReadFault.{IsAgainFault, again_fault};

use crate::fault::{EntryFault, Paper};
use hub_kinds::{Items, NoMemory, Text};
use night_record::{AgainSet, TableFault, read_again};
use std::alloc::Global;

/// The key of a set that is in a table.
fn key_of(alloc: Global, set: &AgainSet) -> Result<Text, NoMemory>
    ensures { IfOk result (λ key. key ≡ again.key_of set.now) }
{
    let mut key = Vec::from_slice(alloc, set.ends.as_slice())?;
    key.extend_from_slice(set.isa13.as_slice())?;
    key.extend_from_slice(set.gs06.as_slice())?;
    key.push(0)?;
    key.extend_from_slice(set.st02.as_slice())?;
    key.push(0)?;
    key.extend_from_slice(set.receiver.as_slice())?;
    Ok(Items::from_vec(key))
}

fn keys_of(alloc: Global, sets: &[AgainSet]) -> Result<Vec<Text>, NoMemory>
    ensures { IfOk result (λ keys. keys.items ≡ map again.key_of sets.now) }
{
    let mut keys = Vec::new(alloc);
    for i in 0..sets.len() {
        keys.push(key_of(alloc, &sets[i])?)?;
    }
    Ok(keys)
}

/// The fault of a table that isn't read.
fn fault_of(fault: TableFault) -> EntryFault
    ensures { result ≡ again_fault fault }
{
    match fault {
        TableFault::Memory => EntryFault::Memory,
        TableFault::Columns | TableFault::Rows | TableFault::Order => EntryFault::Unreadable(
            Paper::Again,
        ),
    }
}

/// The keys of the sets that a night was asked for again, by their table; none if it is empty.
pub(crate) fn again_keys(alloc: Global, bytes: &[u8]) -> Result<Vec<Text>, EntryFault>
    ensures keys { IfOk result (λ keys. again.AreAgainKeys bytes.now keys.items) }
    ensures refused { IfErr result (IsAgainFault bytes.now) }
{
    match read_again(alloc, bytes) {
        Ok(sets) => Ok(keys_of(alloc, sets.as_slice())?),
        Err(fault) => Err(fault_of(fault)),
    }
}
