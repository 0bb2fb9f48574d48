ghost use Rattle.std.specs.Prelude.{◌≡◌, IfOk, map};
ghost use Rattle.track_table.specs.AnswerNotes.{notes_by, notes_of, notes_of_set};

use crate::notes::{GroupNotes, SetNotes};
use hub_kinds::{Items, NoMemory, SetAnswer};
use set_answers::AnsweredGroup;
use std::alloc::Global;

/// What is kept of the answers to groups, in their order.
pub(crate) fn all_notes(
    alloc: Global,
    groups: Vec<Option<AnsweredGroup<'_>>>,
) -> Result<Items<GroupNotes>, NoMemory>
    ensures { IfOk result (λ notes. notes ≡ map notes_by groups.entry.items) }
{
    let mut notes = Vec::new(alloc);
    for group in groups {
        notes.push(notes_by(alloc, group)?)?;
    }
    Ok(Items::from_vec(notes))
}

/// What is kept of the answer to a group, if there is one.
fn notes_by(alloc: Global, group: Option<AnsweredGroup<'_>>) -> Result<GroupNotes, NoMemory>
    ensures { IfOk result (λ notes. notes ≡ notes_by group.entry) }
{
    match group {
        None => Ok(GroupNotes::none(alloc)),
        Some(group) => notes_of(alloc, group),
    }
}

fn notes_of(alloc: Global, group: AnsweredGroup<'_>) -> Result<GroupNotes, NoMemory>
    ensures { IfOk result (λ notes. notes ≡ notes_of group.entry) }
{
    let AnsweredGroup { answer, sets } = group;
    let sets = notes_of_sets(alloc, sets.into_vec())?;
    Ok(GroupNotes {
        codes: answer.codes,
        sets,
    })
}

/// What is kept of the answers to sets, in their order.
fn notes_of_sets(alloc: Global, sets: Vec<SetAnswer<'_>>) -> Result<Items<SetNotes>, NoMemory>
    ensures { IfOk result (λ notes. notes ≡ map notes_of_set sets.entry.items) }
{
    let mut notes = Vec::new(alloc);
    for set in sets {
        notes.push(notes_of_set(set))?;
    }
    Ok(Items::from_vec(notes))
}

fn notes_of_set(answer: SetAnswer<'_>) -> SetNotes
    ensures { result ≡ notes_of_set answer.entry }
{
    let faults = answer.faults.len() as u64;
    SetNotes {
        codes: answer.codes,
        faults,
    }
}
