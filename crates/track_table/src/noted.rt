ghost use Rattle.std.specs.Prelude.{◌≡◌, ◌||◌, IfOk, None, if◌then◌else◌};
ghost use Rattle.std.specs.List.{All};
ghost use Rattle.env_index.specs.Words.{HasSpans};
ghost use Rattle.set_answers.specs.Acknowledgments.{has_any, present};
ghost use Rattle.set_answers.specs.CheckedText.{CheckedInterchange};
ghost use Rattle.track_table.specs.Noted.{AreNoted, IsNoted, notes_of};

use crate::answer_notes::all_notes;
use crate::notes::Notes;
use answered_sets::{JudgedInterchange, ta1_note};
use env_index::{Index, IndexedInterchange};
use hub_kinds::NoMemory;
use partner_setup::Setup;
use set_answers::{AnsweredGroup, answers_to, judge};
use std::alloc::Global;

/// A text once its sets are checked.
#[derive(Drop)]
pub struct NotedText<'i, 'a> {
    /// Its interchanges, in their order.
    pub interchanges: Vec<JudgedInterchange<'i, 'a>>,
    /// What is kept of the answers to each of them.
    pub notes: Vec<Notes>,
}

/// Whether something is answered to any of these groups.
fn has_any(groups: &[Option<AnsweredGroup<'_>>]) -> bool
    ensures { result ≡ has_any (present groups.now) }
{
    for group in groups {
        if group.is_some() {
            return true;
        }
    }
    false
}

/// The sender of an interchange, where a TA1 or a 999 answers it.
fn if_any(sender: Option<usize>, noted: bool, has_reports: bool) -> Option<usize>
    ensures { result ≡ (if noted || has_reports then sender else None) }
{
    if noted || has_reports { sender } else { None }
}

/// What is kept of the answers to an interchange, which are these.
fn notes_with(
    alloc: Global,
    entry: &IndexedInterchange<'_>,
    sender: Option<usize>,
    groups: Vec<Option<AnsweredGroup<'_>>>,
) -> Result<Notes, NoMemory>
    ensures { IfOk result (λ notes. (x : CheckedInterchange) → x.entry ≡ entry.now → x.sender ≡ sender → x.groups ≡ groups.entry.items
        → notes ≡ notes_of x) }
{
    let has_reports = has_any(groups.as_slice());
    let noted = ta1_note(sender, entry.fault(), entry.interchange()).is_some();
    Ok(Notes {
        groups: all_notes(alloc, groups)?,
        recipient: if_any(sender, noted, has_reports),
        has_reports,
    })
}

/// Answers an interchange, and keeps what is asked of it later.
fn note_interchange<'i, 'a>(
    alloc: Global,
    setup: &'a Setup,
    text: &'a [u8],
    entry: &'i IndexedInterchange<'a>,
) -> Result<(JudgedInterchange<'i, 'a>, Notes), NoMemory>
    requires { HasSpans text.now entry.now.interchange }
    ensures { IfOk result (λ noted. IsNoted text.entry.now setup.entry.now entry.entry.now noted.0 noted.1) }
{
    let sender = setup.sender_of(entry.interchange().header());
    let groups = answers_to(alloc, setup, text, sender, entry)?;
    let judged = judge(alloc, text, entry, sender, groups.as_slice())?;
    let notes = notes_with(alloc, entry, sender, groups)?;
    Ok((judged, notes))
}

/// Checks the sets of a text by the guides of their senders, answers them, and keeps of each interchange of the settled index what is
/// asked of it later. X12.5, interchange; 999 guide (005010X231). The only error is out of memory.
pub fn note_text<'i, 'a>(
    alloc: Global,
    setup: &'a Setup,
    index: &'i Index<'a>,
) -> Result<NotedText<'i, 'a>, NoMemory>
    requires { All (λ e. HasSpans index.now.text e.interchange) index.now.entries }
    ensures { IfOk result (λ noted. AreNoted index.entry.now.text setup.entry.now index.entry.now.entries
        noted.interchanges.items noted.notes.items) }
{
    let text = index.text();
    let entries = index.interchanges();
    let mut interchanges = Vec::new(alloc);
    let mut notes = Vec::new(alloc);
    for i in 0..entries.len() {
        let (judged, kept) = note_interchange(alloc, setup, text, &entries[i])?;
        interchanges.push(judged)?;
        notes.push(kept)?;
    }
    Ok(NotedText {
        interchanges,
        notes,
    })
}
