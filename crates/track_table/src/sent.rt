ghost use Rattle.std.specs.Prelude.{◌≡◌, ◌<◌, ◌++◌, ◌∷◌, [], ℕ, List, Some, IfOk, OnOk, length, slice_get};
ghost use Rattle.track_table.specs.declared.notes.Notes.{Notes};
ghost use Rattle.track_table.specs.Walking.{AreSent, with_one};

use crate::cursor::one_more;
use crate::notes::Notes;
use hub_kinds::NoMemory;
use std::alloc::Global;

/// How much is sent to a partner before its mailbox.
#[derive(Debug, Drop)]
pub struct Sent {
    /// How many acknowledgments.
    pub acknowledgments: u64,
    /// How many of them have a group.
    pub groups: u64,
}

/// Nothing is sent to any of this many partners.
fn nothing_sent(alloc: Global, partners: usize) -> Result<Vec<Sent>, NoMemory>
    ensures { IfOk result (λ v. AreSent partners [] v.items) }
{
    let mut sent = Vec::new(alloc);
    for _ in 0..partners {
        sent.push(Sent {
            acknowledgments: 0,
            groups: 0,
        })?;
    }
    Ok(sent)
}

/// One acknowledgment more.
fn with_one(sent: &Sent, has_reports: bool) -> Result<Sent, NoMemory>
    ensures { IfOk result (λ more. more ≡ with_one sent.now has_reports) }
{
    let acknowledgments = one_more(sent.acknowledgments)?;
    let groups = if has_reports {
        one_more(sent.groups)?
    } else {
        sent.groups
    };
    Ok(Sent {
        acknowledgments,
        groups,
    })
}

/// What is sent to the partner at a place so far.
fn sent_at(sent: &[Sent], place: usize) -> &Sent
    requires { place < length sent.now }
    ensures { slice_get sent.entry.now place ≡ Some result.now }
{
    &sent[place]
}

/// Counts what an interchange is acknowledged with.
fn count_one(sent: &mut [Sent], notes: &Notes) -> Result<(), NoMemory>
    ensures { OnOk result ((n : ℕ) (xs : List Notes) → AreSent n xs sent.old → AreSent n (xs ++ notes.now ∷ []) sent.new) }
{
    match notes.recipient {
        Some(place) if place < sent.len() => {
            let was = sent_at(sent, place);
            let more = with_one(was, notes.has_reports)?;
            sent[place] = more;
            Ok(())
        }
        _ => Ok(()),
    }
}

/// Counts what interchanges are acknowledged with.
fn count_all(sent: &mut [Sent], night: &[Notes]) -> Result<(), NoMemory>
    ensures { OnOk result ((n : ℕ) → AreSent n [] sent.old → AreSent n night.now sent.new) }
{
    for i in 0..night.len() {
        count_one(sent, &night[i])?;
    }
    Ok(())
}

/// How much is sent of these interchanges to each of this many partners.
pub(crate) fn sent_of(
    alloc: Global,
    partners: usize,
    night: &[Notes],
) -> Result<Vec<Sent>, NoMemory>
    ensures { IfOk result (λ v. AreSent partners night.now v.items) }
{
    let mut sent = nothing_sent(alloc, partners)?;
    count_all(sent.as_mut_slice(), night)?;
    Ok(sent)
}
