ghost use Rattle.std.specs.Prelude.{◌≡◌, ◌++◌, OnOk, option_map};
ghost use Rattle.std.specs.Str.{bytes_eq};
ghost use Rattle.hub_kinds.specs.Words.{contains_text};
ghost use Rattle.night_entries.specs.Named.{found_in};
ghost use Rattle.record_chain.specs.Breaks as breaks;

use crate::breaks::{ChainBreak, FileFault, WrongFile};
use crate::known::{by_name, find, listed};
use crate::night::ReadNight;
use hub_kinds::{Lent, NoMemory};
use night_record::SummedFile;
use std::alloc::Global;
use std::collections::BTreeMap;

fn is_text(name: &[u8], text: &str) -> bool
    ensures { result ≡ bytes_eq text.now name.now }
{
    text.as_bytes() == name
}

fn is_mark(name: &[u8]) -> bool
    ensures { result ≡ contains_text breaks.marks name.now }
{
    is_text(name, "from/at") || (is_text(name, "from/before") || is_text(name, "from/in.sum"))
}

/// Whether the file `name` is the record, or says again what the record says.
fn is_beside(name: &[u8]) -> bool
    ensures { result ≡ contains_text breaks.beside name.now }
{
    is_text(name, "night.toml")
        || (is_text(name, "done") || (is_text(name, "sums") || is_mark(name)))
}

fn listed_fault(file: &SummedFile, found: Option<&SummedFile>) -> Option<FileFault>
    ensures { result ≡ breaks.listed_fault file.now (option_map (λ f. f.now) found.entry) }
{
    match found {
        None => Some(FileFault::Gone),
        Some(found) if file.sum.as_slice() == found.sum.as_slice() => None,
        Some(_) => Some(FileFault::Changed),
    }
}

fn found_fault(name: &[u8], listed: Option<&SummedFile>) -> Option<FileFault>
    ensures { result ≡ breaks.found_fault name.now (option_map (λ f. f.now) listed.entry) }
{
    match listed {
        Some(_) => None,
        None if is_beside(name) => None,
        None => Some(FileFault::NotListed),
    }
}

fn add_wrong_file<'a>(
    found: &mut Vec<ChainBreak<'a>>,
    night: &'a ReadNight,
    file: &'a [u8],
    fault: Option<FileFault>,
) -> Result<(), NoMemory>
    ensures { OnOk result (found.new.items ≡ found.old.items ++ breaks.wrong_file night.entry.now file.entry.now fault) }
{
    if let Some(fault) = fault {
        found.push(ChainBreak::File(WrongFile {
            number: night.record.number,
            name: Lent::new(night.record.name.as_slice()),
            file: Lent::new(file),
            fault,
        }))?;
    }
    Ok(())
}

/// Adds each of `files`, which the record lists, that isn't there as it is listed.
fn add_listed_breaks<'a>(
    found: &mut Vec<ChainBreak<'a>>,
    there: &BTreeMap<&'a [u8], &'a SummedFile>,
    night: &'a ReadNight,
    files: &'a [SummedFile],
) -> Result<(), NoMemory>
    ensures { OnOk result (found.new.items
        ≡ found.old.items ++ breaks.listed_breaks (found_in there.now) night.entry.now files.entry.now) }
{
    for i in 0..files.len() {
        let file = &files[i];
        let name = file.name.as_slice();
        add_wrong_file(found, night, name, listed_fault(file, find(there, name)))?;
    }
    Ok(())
}

/// Adds each of `files`, which were found, that the record doesn't list.
fn add_found_breaks<'a>(
    found: &mut Vec<ChainBreak<'a>>,
    listed: &BTreeMap<&'a [u8], &'a SummedFile>,
    night: &'a ReadNight,
    files: &'a [SummedFile],
) -> Result<(), NoMemory>
    ensures { OnOk result (found.new.items
        ≡ found.old.items ++ breaks.found_breaks (found_in listed.now) night.entry.now files.entry.now) }
{
    for i in 0..files.len() {
        let name = files[i].name.as_slice();
        add_wrong_file(found, night, name, found_fault(name, find(listed, name)))?;
    }
    Ok(())
}

/// Adds the files of `night` that are gone, changed or not listed.
pub(crate) fn add_file_breaks<'a>(
    alloc: Global,
    found: &mut Vec<ChainBreak<'a>>,
    night: &'a ReadNight,
) -> Result<(), NoMemory>
    ensures { OnOk result (found.new.items ≡ found.old.items ++ breaks.file_breaks night.entry.now) }
{
    let there = by_name(alloc, night.found.as_slice())?;
    add_listed_breaks(found, &there, night, night.record.made_of.as_slice())?;
    add_listed_breaks(found, &there, night, night.record.gave.as_slice())?;
    let listed = listed(alloc, &night.record)?;
    add_found_breaks(found, &listed, night, night.found.as_slice())
}
