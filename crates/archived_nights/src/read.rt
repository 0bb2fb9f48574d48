ghost use Rattle.std.specs.Prelude.{◌≡◌, ℕ, List, IfErr, IfOk, OnOk, map, true};
ghost use Rattle.night_entries.specs.Good.{is_moment};
ghost use Rattle.night_record.specs.Again.{IsAgainFault, again_text};
ghost use Rattle.night_record.specs.Tables.{addresses_text, are_addresses};
ghost use Rattle.night_record.specs.Tables as tables;
ghost use Rattle.archived_nights.specs.Archive.{rows_of};
ghost use Rattle.archived_nights.specs.Files as files;

use crate::fault::{ArchiveFault, ArchiveFile};
use crate::keys::keys_of;
use crate::left::address_of;
use crate::sums::sums_text;
use hub_kinds::{Items, NoMemory, copy_text, read_number};
use hub_ledger::{AddressNumbers, NightEntry};
use night_record::{AddressNext, AgainSet, TableFault, read_addresses, read_again};
use std::alloc::Global;

/// How many digits a moment has, CCYYMMDDHHMM.
const DIGITS: usize = 12;

/// The bytes of an archive's files.
#[derive(Drop)]
pub struct ArchivePapers<'a> {
    /// The name of its folder.
    pub name: &'a [u8],
    pub moment: &'a [u8],
    /// The table of the sets that were delivered.
    pub delivered: &'a [u8],
    /// The table of what comes next for each address.
    pub addresses: &'a [u8],
    /// The sums of the two tables.
    pub sums: &'a [u8],
}

/// Whether `text` is twelve digits.
fn is_moment(text: &[u8]) -> bool
    ensures { result ≡ is_moment text.now }
{
    text.len() == DIGITS && read_number(text, DIGITS).is_some()
}

/// The row of an address that is sent nothing, and whose next numbers `next` says.
fn row_of(alloc: Global, next: &AddressNext) -> Result<AddressNumbers, NoMemory>
    ensures { IfOk result (λ row. row ≡ files.row_of next.now) }
{
    Ok(AddressNumbers {
        partner: address_of(alloc, next)?,
        address: address_of(alloc, next)?,
        begun: next.next,
        left: next.next,
    })
}

fn rows_of(alloc: Global, list: &[AddressNext]) -> Result<Vec<AddressNumbers>, NoMemory>
    ensures { IfOk result (λ rows. rows.items ≡ rows_of list.now) }
{
    let mut rows = Vec::new(alloc);
    for i in 0..list.len() {
        rows.push(row_of(alloc, &list[i])?)?;
    }
    Ok(rows)
}

/// The fault of a table of sets.
fn delivered_fault(fault: TableFault) -> ArchiveFault
    ensures { (bytes : List ℕ) → IsAgainFault bytes fault → files.IsDeliveredFault bytes result }
{
    match fault {
        TableFault::Memory => ArchiveFault::Memory,
        TableFault::Columns => ArchiveFault::Wrong(ArchiveFile::Delivered),
        TableFault::Rows => ArchiveFault::Wrong(ArchiveFile::Delivered),
        TableFault::Order => ArchiveFault::Wrong(ArchiveFile::Delivered),
    }
}

/// The fault of a table of addresses.
fn addresses_fault(fault: TableFault) -> ArchiveFault
    ensures { (bytes : List ℕ) → tables.IsAddressesFault bytes fault → files.IsAddressesFault bytes result }
{
    match fault {
        TableFault::Memory => ArchiveFault::Memory,
        TableFault::Columns => ArchiveFault::Wrong(ArchiveFile::Addresses),
        TableFault::Rows => ArchiveFault::Wrong(ArchiveFile::Addresses),
        TableFault::Order => ArchiveFault::Wrong(ArchiveFile::Addresses),
    }
}

/// The sets of the table `bytes`.
fn sets_in(alloc: Global, bytes: &[u8]) -> Result<Vec<AgainSet>, ArchiveFault>
    ensures sets { IfOk result (λ sets. bytes.now ≡ again_text sets.items) }
    ensures wrong { IfErr result (files.IsDeliveredFault bytes.now) }
{
    match read_again(alloc, bytes) {
        Ok(sets) => Ok(sets),
        Err(fault) => Err(delivered_fault(fault)),
    }
}

/// The addresses of the table `bytes`.
fn addresses_in(alloc: Global, bytes: &[u8]) -> Result<Vec<AddressNext>, ArchiveFault>
    ensures list { IfOk result (λ list. (bytes.now ≡ addresses_text list.items) × (are_addresses list.items ≡ true)) }
    ensures wrong { IfErr result (files.IsAddressesFault bytes.now) }
{
    match read_addresses(alloc, bytes) {
        Ok(list) => Ok(list),
        Err(fault) => Err(addresses_fault(fault)),
    }
}

/// Sees to it that the moment is one, and that the tables have the sums that are listed.
fn check_sums(alloc: Global, papers: &ArchivePapers<'_>) -> Result<(), ArchiveFault>
    ensures moment { OnOk result (is_moment papers.now.moment.now ≡ true) }
    ensures sums { OnOk result (papers.now.sums.now ≡ files.sums_text papers.now.delivered.now papers.now.addresses.now) }
    ensures wrong { IfErr result (files.IsFaultOf papers.now) }
{
    if !is_moment(papers.moment) {
        return Err(ArchiveFault::Wrong(ArchiveFile::Moment));
    }
    let sums = sums_text(alloc, papers.delivered, papers.addresses)?;
    if papers.sums == sums.as_slice() {
        Ok(())
    } else {
        Err(ArchiveFault::Wrong(ArchiveFile::Sums))
    }
}

/// The entry of an archive, by `papers`. Errors: the first file that isn't what it must be, in the order moment, sums, delivered sets and
/// addresses; or out of memory.
pub fn read_archive(alloc: Global, papers: &ArchivePapers<'_>) -> Result<NightEntry, ArchiveFault>
    ensures entry { IfOk result (files.IsEntry papers.now) }
    ensures wrong { IfErr result (files.IsFaultOf papers.now) }
{
    check_sums(alloc, papers)?;
    let sets = sets_in(alloc, papers.delivered)?;
    let list = addresses_in(alloc, papers.addresses)?;
    let delivered = keys_of(alloc, sets.as_slice())?;
    let rows = rows_of(alloc, list.as_slice())?;
    Ok(NightEntry {
        name: copy_text(alloc, papers.name)?,
        moment: copy_text(alloc, papers.moment)?,
        delivered: Items::from_vec(delivered),
        again: Items::from_vec(Vec::new(alloc)),
        addresses: Items::from_vec(rows),
        files: Items::from_vec(Vec::new(alloc)),
    })
}
