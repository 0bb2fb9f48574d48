ghost use Rattle.std.specs.Prelude.{◌≡◌, ◌++◌, [], IfOk, OnOk, map};
ghost use Rattle.std.specs.Option.{unwrap_or};
ghost use Rattle.night_record.specs.Again.{again_text};
ghost use Rattle.day_files.specs.Again as again;
ghost use Rattle.day_files.specs.Members.{asked_again};

use crate::member::Member;
use breach_lines::key_parts;
use hub_kinds::{NoMemory, Text, Texts, copy_text};
use night_record::{AgainSet, append_again};
use std::alloc::Global;

/// The set of a key.
fn set_in(alloc: Global, key: &[u8]) -> Result<AgainSet, NoMemory>
    ensures { IfOk result (λ set. set ≡ again.set_in key.now) }
{
    let parts = key_parts(key);
    Ok(AgainSet {
        ends: copy_text(alloc, parts.ends)?,
        isa13: copy_text(alloc, parts.isa13)?,
        gs06: copy_text(alloc, parts.gs06)?,
        st02: copy_text(alloc, parts.st02)?,
        receiver: copy_text(alloc, parts.receiver)?,
    })
}

fn push_sets(alloc: Global, sets: &mut Vec<AgainSet>, keys: &[Text]) -> Result<(), NoMemory>
    ensures { OnOk result (sets.new.items ≡ sets.old.items ++ map again.set_in keys.now) }
{
    for i in 0..keys.len() {
        sets.push(set_in(alloc, keys[i].as_slice())?)?;
    }
    Ok(())
}

/// The keys of the sets of a file, if it is asked for again.
fn keys_of(asked: &Option<Texts>) -> &[Text]
    ensures { result.now ≡ unwrap_or asked.now [] }
{
    match asked {
        None => &[],
        Some(keys) => keys.as_slice(),
    }
}

/// The sets of the files that are asked for again.
fn sets_of(alloc: Global, members: &[Member]) -> Result<Vec<AgainSet>, NoMemory>
    ensures { IfOk result (λ sets. sets.items ≡ map again.set_in (asked_again members.now)) }
{
    let mut sets = Vec::new(alloc);
    for i in 0..members.len() {
        push_sets(alloc, &mut sets, keys_of(&members[i].again))?;
    }
    Ok(sets)
}

/// The table of the sets of the files that are asked for again; empty if there is none. The only error is out of memory.
pub fn again_table(alloc: Global, members: &[Member]) -> Result<Vec<u8>, NoMemory>
    ensures { IfOk result (λ table. table.items ≡ again_text (map again.set_in (asked_again members.now))) }
{
    let sets = sets_of(alloc, members)?;
    let mut table = Vec::new(alloc);
    append_again(&mut table, sets.as_slice())?;
    Ok(table)
}
