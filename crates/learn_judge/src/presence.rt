//! Whether a text has a set that is asked for.
ghost use Rattle.std.specs.Prelude.{◌≡◌, IfOk, IsTrue, option_map};
ghost use Rattle.std.specs.List.{Any};
ghost use Rattle.learn_judge.specs.Indexed.{EntryHasSet, GroupHasSetIn, is_asked_in};
ghost use Rattle.learn_judge.specs.Samples.{HasSet};

use crate::judge::is_asked;
use env_index::{GroupEnvelope, IndexedInterchange, Interchange, index_plain};
use hub_kinds::{NoMemory, within_limit};
use night_equal_text::{faults_are_one, interchanges_are_kept, texts_are_indexes};
use std::alloc::Global;

/// Whether `text` has a set that is asked for, in an interchange without one of the faults 1 to 7. The sets that are asked for are those
/// with `st01`, or all. The only error is out of memory.
pub fn has_set(alloc: Global, text: &[u8], st01: Option<&[u8]>) -> Result<bool, NoMemory>
    ensures { IfOk result (λ has. IsTrue has → HasSet (option_map (λ t. t.now) st01.entry) text.now) }
{
    texts_are_indexes();
    interchanges_are_kept();
    faults_are_one();
    if !within_limit(text.len() as u64) {
        return Ok(false);
    }
    let index = index_plain(alloc, text)?;
    Ok(is_in_entries(st01, index.interchanges()))
}

/// Whether one of `entries` has a set that is asked for, and no fault.
fn is_in_entries(st01: Option<&[u8]>, entries: &[IndexedInterchange]) -> bool
    ensures { IsTrue result → Any (EntryHasSet (option_map (λ t. t.now) st01.entry)) entries.now }
{
    for k in 0..entries.len() {
        if is_in_entry(st01, &entries[k]) {
            return true;
        }
    }
    false
}

/// Whether `entry` has a set that is asked for, and no fault.
fn is_in_entry(st01: Option<&[u8]>, entry: &IndexedInterchange) -> bool
    ensures { IsTrue result → EntryHasSet (option_map (λ t. t.now) st01.entry) entry.now }
{
    if entry.fault().is_some() {
        return false;
    }
    is_in_groups(st01, entry.interchange())
}

/// Whether a group of `interchange` has a set that is asked for.
fn is_in_groups(st01: Option<&[u8]>, interchange: &Interchange) -> bool
    ensures { IsTrue result → Any (GroupHasSetIn (option_map (λ t. t.now) st01.entry)) interchange.now.content.groups }
{
    for k in 0..interchange.group_count() {
        if is_in_group(st01, &interchange.group(k)) {
            return true;
        }
    }
    false
}

/// Whether `group` has a set that is asked for.
fn is_in_group(st01: Option<&[u8]>, group: &GroupEnvelope) -> bool
    ensures { IsTrue result → GroupHasSetIn (option_map (λ t. t.now) st01.entry) group.now }
{
    for k in 0..group.set_count() {
        if is_asked(st01, &group.set(k).header) {
            return true;
        }
    }
    false
}
