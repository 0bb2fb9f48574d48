ghost use Rattle.std.specs.Prelude.{◌≡◌, IfErr, IfOk};
ghost use Rattle.night_entries.specs.Entry.{AreCounters, IsEntry, IsSetup};
ghost use Rattle.night_entries.specs.Good.{is_moment};
ghost use Rattle.night_entries.specs.Refused.{IsEntryFault};
ghost use Rattle.night_entries.specs.ReadFault.{IsReadFault, read_fault};
ghost use Rattle.night_entries.specs.declared.fault.Paper.TheVariants as paper;
ghost use Rattle.partner_setup.specs.CountersFile.{counters_of_table};
ghost use Rattle.partner_setup.specs.SetupFile.{setup_of_table};

use crate::again::again_keys;
use crate::fault::{EntryFault, Paper};
use crate::files::{NamedSum, files_of};
use crate::key::delivered_keys;
use crate::rows::address_rows;
use crate::sums::read_sums;
use crate::table::records_of;
use hub_kinds::{Items, copy_text, read_number};
use hub_ledger::NightEntry;
use partner_setup::{CounterRows, FileFault, SetupRows, read_counters, read_setup};
use std::alloc::Global;

/// How many digits a moment has, CCYYMMDDHHMM.
const DIGITS: usize = 12;

/// What a night leaves: the bytes of its files, and the sums of those that it gave.
#[derive(Drop)]
pub struct Papers<'a> {
    /// The name of its folder.
    pub name: &'a [u8],
    pub moment: &'a [u8],
    pub setup: &'a [u8],
    /// The counters that it begins with, and those that it leaves.
    pub counters: &'a [u8],
    pub next_counters: &'a [u8],
    pub sums: &'a [u8],
    pub input: &'a [u8],
    /// The table of its sets.
    pub track: &'a [u8],
    /// The table of the sets that it was asked for again; empty if there is none.
    pub again: &'a [u8],
    /// The sums of the files that are there.
    pub found: &'a [NamedSum],
}

/// The fault of a file that isn't read.
fn fault_of(fault: FileFault, paper: Paper) -> EntryFault
    ensures { result ≡ read_fault paper fault }
{
    match fault {
        FileFault::NoMemory => EntryFault::Memory,
        FileFault::NotToml
        | FileFault::Missing(_)
        | FileFault::WrongKind(_)
        | FileFault::Unknown(_) => EntryFault::Unreadable(paper),
    }
}

fn setup_of(alloc: Global, bytes: &[u8]) -> Result<SetupRows, EntryFault>
    ensures rows { IfOk result (IsSetup bytes.now) }
    ensures refused { IfErr result (IsReadFault setup_of_table paper.Setup bytes.now) }
{
    match read_setup(alloc, bytes) {
        Ok(rows) => Ok(rows),
        Err(fault) => Err(fault_of(fault, Paper::Setup)),
    }
}

fn counters_of(alloc: Global, bytes: &[u8], paper: Paper) -> Result<CounterRows, EntryFault>
    ensures rows { IfOk result (AreCounters bytes.now) }
    ensures refused { IfErr result (IsReadFault counters_of_table paper bytes.now) }
{
    match read_counters(alloc, bytes) {
        Ok(rows) => Ok(rows),
        Err(fault) => Err(fault_of(fault, paper)),
    }
}

/// Whether a text is twelve digits.
fn is_moment(text: &[u8]) -> bool
    ensures { result ≡ is_moment text.now }
{
    text.len() == DIGITS && read_number(text, DIGITS).is_some()
}

/// What is kept of a night, by `papers`. Errors: the first file that isn't what a night leaves, in the order moment, setup, counters, next
/// counters, sums, table and what was asked for again; or out of memory.
pub fn entry_of(alloc: Global, papers: &Papers<'_>) -> Result<NightEntry, EntryFault>
    ensures entry { IfOk result (IsEntry papers.now) }
    ensures refused { IfErr result (IsEntryFault papers.now) }
{
    if !is_moment(papers.moment) {
        return Err(EntryFault::Unreadable(Paper::Moment));
    }
    let setup = setup_of(alloc, papers.setup)?;
    let begun = counters_of(alloc, papers.counters, Paper::Counters)?;
    let left = counters_of(alloc, papers.next_counters, Paper::NextCounters)?;
    let listed = read_sums(alloc, papers.sums)?;
    let table = records_of(alloc, papers.track)?;
    let rows = address_rows(
        alloc,
        setup.partners.as_slice(),
        begun.as_slice(),
        left.as_slice(),
    )?;
    let delivered = delivered_keys(alloc, papers.input, rows.as_slice(), table.as_slice())?;
    let again = again_keys(alloc, papers.again)?;
    let files = files_of(alloc, rows.as_slice(), listed.as_slice(), papers.found)?;
    Ok(NightEntry {
        name: copy_text(alloc, papers.name)?,
        moment: copy_text(alloc, papers.moment)?,
        delivered: Items::from_vec(delivered),
        again: Items::from_vec(again),
        addresses: Items::from_vec(rows),
        files: Items::from_vec(files),
    })
}
