ghost use Rattle.std.specs.Prelude.{◌≡◌, ◌<◌, ◌≤◌, ◌++◌, Some, length, slice_get, slice_set, IfOk, OnOk};
ghost use Rattle.std.specs.Thread.{IsSync};
ghost use Rattle.set_answers.specs.CheckedText.{SentValues};
ghost use Rattle.set_answers.specs.Counted.{AreContinued, continued_by};
ghost use Rattle.set_answers.specs.Halves.{AreHalves, IsPartAnswered, IsReady};

use crate::batch::Batch;
use crate::counting::start_after;
use crate::files::Acknowledgments;
use crate::reports::ReportedBy;
use crate::walk::{CheckedText, answer_entries};
use env_index::IndexedInterchange;
use hub_kinds::NoMemory;
use job_pool::OneThread;
use set_check::Finding;
use std::alloc::Global;
use std::thread::{Threads, join};

/// How many interchanges are worth a second thread.
pub(crate) const FEWEST: usize = 32;

/// Adds to the acknowledgments at `place` those that continue them.
fn append_to(
    files: &mut [Acknowledgments],
    place: usize,
    more: Acknowledgments,
) -> Result<(), NoMemory>
    requires { place < length files.old }
    ensures { OnOk result ((sent : SentValues) → slice_get files.old place ≡ Some sent
        → files.new ≡ slice_set files.old place (continued_by sent more)) }
{
    files[place].append(more)
}

/// Adds to the acknowledgments of each partner those that continue them.
fn append_all(files: &mut [Acknowledgments], more: Vec<Acknowledgments>) -> Result<(), NoMemory>
    requires { length more.items ≡ length files.old }
    ensures { OnOk result (AreContinued more.items files.old files.new) }
{
    let mut place = 0;
    for sent in more {
        append_to(files, place, sent)?;
        place += 1;
    }
    Ok(())
}

/// The interchanges of both parts, and what partners are sent of them; the second part continues the numbers of the first.
fn both<'i, 'a>(
    first: CheckedText<'i, 'a>,
    second: CheckedText<'i, 'a>,
) -> Result<CheckedText<'i, 'a>, NoMemory>
    requires { length second.acknowledgments.items ≡ length first.acknowledgments.items }
    ensures interchanges { IfOk result (λ c. c.interchanges.items ≡ first.entry.interchanges.items ++ second.entry.interchanges.items) }
    ensures files { IfOk result (λ c. AreContinued second.entry.acknowledgments.items first.entry.acknowledgments.items
        c.acknowledgments.items) }
{
    let CheckedText {
        mut interchanges,
        mut acknowledgments,
    } = first;
    let CheckedText {
        interchanges: mut more,
        acknowledgments: continued,
    } = second;
    interchanges.append(&mut more)?;
    append_all(acknowledgments.as_mut_slice(), continued)?;
    Ok(CheckedText {
        interchanges,
        acknowledgments,
    })
}

/// Interchanges of a batch, their senders, what was found out at their places, and what partners were sent before them.
#[derive(Drop)]
pub(crate) struct Part<'i, 'b, 'a> {
    pub(crate) batch: &'b Batch<'b, 'a>,
    pub(crate) entries: &'i [IndexedInterchange<'a>],
    pub(crate) senders: &'b [Option<usize>],
    pub(crate) found: Vec<Finding<'a>>,
    pub(crate) sent: Vec<Acknowledgments>,
}

/// Cuts a part in the middle of its interchanges; the second half begins with the numbers that come after the first.
fn halves_of<'i, 'b, 'a>(
    alloc: Global,
    part: Part<'i, 'b, 'a>,
) -> Result<(Part<'i, 'b, 'a>, Part<'i, 'b, 'a>), NoMemory>
    requires { IsReady part }
    ensures { IfOk result (λ halves. AreHalves part.entry halves.0 halves.1) }
{
    let Part {
        batch,
        entries,
        senders,
        found,
        sent,
    } = part;
    let (low, high) = entries.split_at(entries.len() / 2);
    let (low_senders, high_senders) = senders.split_at(entries.len() / 2);
    let start = start_after(alloc, sent.as_slice(), low_senders, low)?;
    let mut found = found;
    let rest = found.split_off(start.findings)?;
    let first = Part {
        batch,
        entries: low,
        senders: low_senders,
        found,
        sent,
    };
    let second = Part {
        batch,
        entries: high,
        senders: high_senders,
        found: rest,
        sent: start.sent,
    };
    Ok((first, second))
}

/// Answers the interchanges of a part, one after another.
fn answer_part<'i, 'a>(
    alloc: Global,
    part: Part<'i, '_, 'a>,
) -> Result<CheckedText<'i, 'a>, NoMemory>
    requires { IsReady part }
    ensures { IfOk result (λ c. IsPartAnswered part.entry c.interchanges.items c.acknowledgments.items) }
{
    let by = ReportedBy {
        alloc,
        writers: &OneThread,
    };
    answer_entries(
        &by,
        part.batch,
        part.entries,
        part.senders,
        part.found,
        part.sent,
    )
}

/// Answers the interchanges of a part. At most `threads` threads answer them, half of the interchanges each.
#[cycle(halves)]
pub(crate) fn answer_by<'i, 'b, 'a: 'i, R: Threads + Sync>(
    rt: &R,
    alloc: Global,
    part: Part<'i, 'b, 'a>,
    threads: u64,
) -> Result<CheckedText<'i, 'a>, NoMemory>
    requires { IsReady part }
    ensures { IfOk result (λ c. IsPartAnswered part.entry c.interchanges.items c.acknowledgments.items) }
{
    if threads < 2 || part.entries.len() < FEWEST {
        return answer_part(alloc, part);
    }
    let (low, high) = halves_of(alloc, part)?;
    let front = move || -> Result<CheckedText<'_, '_>, NoMemory>
        requires { IsSync R.row × (2 ≤ threads)
            × IsReady low }
        ensures { IfOk result (λ c. IsPartAnswered low.entry c.interchanges.items c.acknowledgments.items) }
    { answer_by(rt, alloc, low, threads / 2) };
    let back = move || -> Result<CheckedText<'_, '_>, NoMemory>
        requires { IsSync R.row × (2 ≤ threads)
            × IsReady high }
        ensures { IfOk result (λ c. IsPartAnswered high.entry c.interchanges.items c.acknowledgments.items) }
    { answer_by(rt, alloc, high, threads - threads / 2) };
    let (first, second) = join(rt, front, back);
    let all = both(first?, second?)?;
    Ok(all)
}
