ghost use Rattle.std.specs.Prelude.{◌≡◌, ◌∷◌, ◌++◌, IfOk, List, OnOk};
ghost use Rattle.archived_nights.specs.Archived.{IsArchiveOf};
ghost use Rattle.archived_nights.specs.Archive as archive;

use crate::fault::MakeFault;
use crate::keys::push_sets;
use crate::left::next_after;
use hub_kinds::{Items, NoMemory, Text, copy_text};
use hub_ledger::NightEntry;
use night_record::{AddressNext, AgainSet};
use std::alloc::Global;

/// Nights that are archived as one.
#[derive(Drop)]
pub struct Archive {
    /// The name of the last of them.
    pub name: Text,
    /// The moment of the last of them.
    pub moment: Text,
    /// The sets that they delivered.
    pub sets: Items<AgainSet>,
    /// What comes next for each address that one of them knows.
    pub next: Items<AddressNext>,
}

/// The sets that `nights` delivered.
fn sets_of(alloc: Global, nights: &[NightEntry]) -> Result<Vec<AgainSet>, MakeFault>
    ensures { IfOk result (λ sets. archive.AreDelivered (archive.newest_first nights.now) sets.items) }
{
    let mut sets = Vec::new(alloc);
    for i in 0..nights.len() {
        push_sets(alloc, &mut sets, nights[i].delivered.as_slice())?;
    }
    Ok(sets)
}

fn last_name(nights: &[NightEntry]) -> &[u8]
    ensures { result.now ≡ archive.last_name nights.entry.now }
{
    match nights.last() {
        None => b"",
        Some(night) => night.name.as_slice(),
    }
}

fn last_moment(nights: &[NightEntry]) -> &[u8]
    ensures { result.now ≡ archive.last_moment nights.entry.now }
{
    match nights.last() {
        None => b"",
        Some(night) => night.moment.as_slice(),
    }
}

/// The archive of `nights`, the oldest of which comes first. Errors: a key or an address, or its numbers, can't be written down; or out of
/// memory.
pub fn archive_of(alloc: Global, nights: &[NightEntry]) -> Result<Archive, MakeFault>
    ensures { IfOk result (λ made. IsArchiveOf (archive.newest_first nights.now) (archive.entry_of made)) }
{
    let sets = sets_of(alloc, nights)?;
    let next = next_after(alloc, nights)?;
    let name = copy_text(alloc, last_name(nights))?;
    let moment = copy_text(alloc, last_moment(nights))?;
    Ok(Archive {
        name,
        moment,
        sets: Items::from_vec(sets),
        next: Items::from_vec(next),
    })
}
