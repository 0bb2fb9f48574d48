ghost use Rattle.std.specs.Prelude.{◌≡◌, ◌++◌, ◌∷◌, [], IfOk, OnOk, map};
ghost use Rattle.night_entries.specs.Again.{key_of};

use crate::fault::MakeFault;
use breach_lines::key_parts;
use hub_kinds::{Items, NoMemory, Text, copy_text};
use night_record::AgainSet;
use std::alloc::Global;

/// The key of `set`.
fn key_of(alloc: Global, set: &AgainSet) -> Result<Text, NoMemory>
    ensures { IfOk result (λ key. key ≡ key_of set.now) }
{
    let mut key = Vec::from_slice(alloc, set.ends.as_slice())?;
    key.extend_from_slice(set.isa13.as_slice())?;
    key.extend_from_slice(set.gs06.as_slice())?;
    key.push(0)?;
    key.extend_from_slice(set.st02.as_slice())?;
    key.push(0)?;
    key.extend_from_slice(set.receiver.as_slice())?;
    Ok(Items::from_vec(key))
}

/// The keys of `sets`.
pub(crate) fn keys_of(alloc: Global, sets: &[AgainSet]) -> Result<Vec<Text>, NoMemory>
    ensures { IfOk result (λ keys. keys.items ≡ map key_of sets.now) }
{
    let mut keys = Vec::new(alloc);
    for i in 0..sets.len() {
        keys.push(key_of(alloc, &sets[i])?)?;
    }
    Ok(keys)
}

/// The elements of `key`.
fn parts_of(alloc: Global, key: &[u8]) -> Result<AgainSet, NoMemory> {
    let parts = key_parts(key);
    Ok(AgainSet {
        ends: copy_text(alloc, parts.ends)?,
        isa13: copy_text(alloc, parts.isa13)?,
        gs06: copy_text(alloc, parts.gs06)?,
        st02: copy_text(alloc, parts.st02)?,
        receiver: copy_text(alloc, parts.receiver)?,
    })
}

/// The set of `key`. Errors: `key` isn't that of the set of its elements; or out of memory.
fn set_of(alloc: Global, key: &[u8]) -> Result<AgainSet, MakeFault>
    ensures { IfOk result (λ set. key_of set ≡ key.now) }
{
    let set = parts_of(alloc, key)?;
    let again = key_of(alloc, &set)?;
    if again.as_slice() == key {
        Ok(set)
    } else {
        Err(MakeFault::Unwritable)
    }
}

fn push(sets: &mut Vec<AgainSet>, set: AgainSet) -> Result<(), NoMemory>
    ensures { OnOk result (sets.new.items ≡ sets.old.items ++ set ∷ []) }
{
    sets.push(set)?;
    Ok(())
}

/// Adds the sets of `keys`.
pub(crate) fn push_sets(
    alloc: Global,
    sets: &mut Vec<AgainSet>,
    keys: &[Text],
) -> Result<(), MakeFault>
    ensures { OnOk result (map key_of sets.new.items ≡ map key_of sets.old.items ++ keys.now) }
{
    for i in 0..keys.len() {
        push(sets, set_of(alloc, keys[i].as_slice())?)?;
    }
    Ok(())
}
