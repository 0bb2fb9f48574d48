ghost use Rattle.std.specs.Prelude.{◌≡◌, ◌++◌, IfErr, IfOk, OnOk, map};
ghost use Rattle.std.specs.List.{flat_map};
ghost use Rattle.night_entries.specs.Files.{sum_line};
ghost use Rattle.hub_folder.specs.Failure.{IsBefore};
ghost use Rattle.hub_night.specs.Made as made;

use hub_folder::Failure;
use hub_kinds::{NoMemory, Text, copy_text};
use hub_ledger::NightEntry;
use night_entries::{EntryFault, NamedSum, Papers, entry_of, sum_of};
use night_shelf::NightFile;
use std::alloc::Global;

/// The sums of files.
fn sums_of(alloc: Global, files: &[NightFile]) -> Result<Vec<NamedSum>, NoMemory>
    ensures { IfOk result (λ sums. sums.items ≡ map made.named_sum files.now) }
{
    let mut sums = Vec::new(alloc);
    for i in 0..files.len() {
        sums.push(NamedSum {
            name: copy_text(alloc, files[i].name.as_slice())?,
            sum: sum_of(alloc, files[i].bytes.as_slice())?,
        })?;
    }
    Ok(sums)
}

fn append_line(out: &mut Vec<u8>, sum: &NamedSum) -> Result<(), NoMemory>
    ensures { OnOk result (out.new.items ≡ out.old.items ++ sum_line sum.now) }
{
    out.extend_from_slice(sum.sum.as_slice())?;
    out.extend_from_slice(b"  ")?;
    out.extend_from_slice(sum.name.as_slice())?;
    out.push(b'\n')?;
    Ok(())
}

/// The lines of sums.
fn lines_of(alloc: Global, sums: &[NamedSum]) -> Result<Vec<u8>, NoMemory>
    ensures { IfOk result (λ lines. lines.items ≡ flat_map sum_line sums.now) }
{
    let mut lines = Vec::new(alloc);
    for i in 0..sums.len() {
        append_line(&mut lines, &sums[i])?;
    }
    Ok(lines)
}

/// The bytes of the last of `files` but one; none if there is none.
fn last_but_one(files: &[NightFile]) -> &[u8]
    ensures { result.now ≡ made.last_but_one files.now }
{
    if files.len() < 2 {
        return b"";
    }
    files[files.len() - 2].bytes.as_slice()
}

/// A night in memory: its name, its moment, and the bytes of its files.
#[derive(Clone, Copy)]
pub(crate) struct NightBytes<'a> {
    pub(crate) name: &'a [u8],
    pub(crate) at: &'a [u8],
    pub(crate) setup: &'a [u8],
    pub(crate) counters: &'a [u8],
    pub(crate) input: &'a [u8],
    pub(crate) track: &'a [u8],
    /// The table of the sets that it was asked for again.
    pub(crate) again: &'a [u8],
    /// The files that it gives: those of the run, of which the last has the counters that it leaves, and the total.
    pub(crate) given: &'a [NightFile],
}

/// What is kept of a night, by its bytes. A night that the program makes has no file that isn't what a night leaves; one that has is a
/// failure, and isn't kept.
pub(crate) fn entry_in(alloc: Global, night: &NightBytes<'_>) -> Result<NightEntry, Failure>
    ensures entry { IfOk result (made.IsEntryIn night.now) }
    ensures before { IfErr result IsBefore }
{
    let found = sums_of(alloc, night.given)?;
    let sums = lines_of(alloc, found.as_slice())?;
    let papers = Papers {
        name: night.name,
        moment: night.at,
        setup: night.setup,
        counters: night.counters,
        next_counters: last_but_one(night.given),
        sums: sums.as_slice(),
        input: night.input,
        track: night.track,
        again: night.again,
        found: found.as_slice(),
    };
    match entry_of(alloc, &papers) {
        Ok(entry) => Ok(entry),
        Err(EntryFault::Memory) => Err(Failure::Memory),
        Err(EntryFault::Unreadable(_)) => Err(Failure::Record),
    }
}
