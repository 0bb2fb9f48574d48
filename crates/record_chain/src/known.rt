ghost use Rattle.std.specs.Prelude.{◌≡◌, ℕ, List, IfOk, OnOk, option_map};
ghost use Rattle.std.specs.Option.{option_or};
ghost use Rattle.night_entries.specs.Named.{found_in};
ghost use Rattle.record_chain.specs.Breaks as breaks;

use hub_kinds::NoMemory;
use night_record::{NightRecord, SummedFile};
use std::alloc::Global;
use std::collections::BTreeMap;

fn add_files<'a>(
    map: &mut BTreeMap<&'a [u8], &'a SummedFile>,
    files: &'a [SummedFile],
) -> Result<(), NoMemory>
    ensures { OnOk result ((name : List ℕ)
        → found_in map.new name ≡ option_or (breaks.file_named files.entry.now name) (found_in map.old name)) }
{
    for i in 0..files.len() {
        let file = &files[i];
        map.insert(file.name.as_slice(), file)?;
    }
    Ok(())
}

/// The last one of `files` for each name.
pub(crate) fn by_name<'a>(
    alloc: Global,
    files: &'a [SummedFile],
) -> Result<BTreeMap<&'a [u8], &'a SummedFile>, NoMemory>
    ensures { IfOk result (λ map. (name : List ℕ) → found_in map name ≡ breaks.file_named files.entry.now name) }
{
    let mut map = BTreeMap::new(alloc);
    add_files(&mut map, files)?;
    Ok(map)
}

/// The files that `night` lists, by their names.
pub(crate) fn listed<'a>(
    alloc: Global,
    night: &'a NightRecord,
) -> Result<BTreeMap<&'a [u8], &'a SummedFile>, NoMemory>
    ensures { IfOk result (λ map. (name : List ℕ) → found_in map name ≡ breaks.file_named (breaks.listed night.entry.now) name) }
{
    let mut map = BTreeMap::new(alloc);
    add_files(&mut map, night.made_of.as_slice())?;
    add_files(&mut map, night.gave.as_slice())?;
    Ok(map)
}

/// The file of `name`.
pub(crate) fn find<'a>(
    map: &BTreeMap<&'a [u8], &'a SummedFile>,
    name: &[u8],
) -> Option<&'a SummedFile>
    ensures { option_map (λ file. file.now) result ≡ found_in map.now name.now }
{
    map.get(name).copied()
}
