ghost use Rattle.std.specs.Prelude.{◌≡◌, ◌++◌, ◌∷◌, ◌+◌, ◌≤◌, [], List, None, map, length, IfOk, OnOk};
ghost use Rattle.std.specs.List.{All};
ghost use Rattle.std.specs.Thread.{IsSync};
ghost use Rattle.hub_kinds.specs.declared.limits.TheConstants.{LONGEST_TEXT};
ghost use Rattle.env_index.specs.Words.{HasSpans, IndexEntry, group_numbers_from, place_at, places_of, set_numbers_from};
ghost use Rattle.partner_setup.specs.Setup.{sender_of};
ghost use Rattle.set_answers.specs.Asked.{groups_asked, sets_asked};
ghost use Rattle.set_answers.specs.Settled.{senders_of};
ghost use Rattle.set_findings.specs.Alone.{entries_alone};
ghost use Rattle.set_findings.specs.Jobs.{HasFewSets, entry_jobs, jobs_at, jobs_behind, jobs_of};
ghost use Rattle.worker_pool.specs.Jobs.{job_value};
ghost use Rattle.worker_pool.specs.Spans.{AreSpans};

use crate::guides::FastGuides;
use crate::sent::Sent;
use env_index::{GroupEnvelope, Index, IndexedInterchange, Interchange};
use hub_kinds::{NoMemory, Place};
use std::alloc::Global;
use std::thread::{Threads, join};
use worker_pool::CheckJob;

/// How many interchanges are worth a second thread.
const FEWEST: usize = 32;

/// The jobs of a group's sets.
fn add_sets<'f, 'g, 'a>(
    jobs: &mut Vec<CheckJob<'f, 'g, 'a>>,
    sent: &Sent<'f, 'g, 'a>,
    isa: u32,
    gs: u32,
    group: &GroupEnvelope<'_, 'a>,
) -> Result<(), NoMemory>
    requires { length group.now.sets ≤ LONGEST_TEXT }
    ensures { OnOk result (map job_value jobs.new.items ≡ map job_value jobs.old.items
        ++ jobs_at (set_numbers_from isa gs 1 group.now.sets) (sets_asked sent.now group.now.header [] group.now.sets)) }
{
    let header = group.header();
    let code = header.element(1);
    let version = header.element(8);
    for index in 0..group.set_count() {
        let st = index as u32 + 1;
        let set = group.set(index);
        jobs.push(sent.set_job(Place { isa, gs, st }, code, version, &set))?;
    }
    Ok(())
}

/// The job of a group, and those of its sets.
fn add_group<'f, 'g, 'a>(
    jobs: &mut Vec<CheckJob<'f, 'g, 'a>>,
    sent: &Sent<'f, 'g, 'a>,
    isa: u32,
    gs: u32,
    group: &GroupEnvelope<'_, 'a>,
) -> Result<(), NoMemory>
    requires { length group.now.sets ≤ LONGEST_TEXT }
    ensures { OnOk result (map job_value jobs.new.items ≡ map job_value jobs.old.items
        ++ record { place = place_at isa gs 0; set = None }
        ∷ jobs_at (set_numbers_from isa gs 1 group.now.sets) (sets_asked sent.now group.now.header [] group.now.sets)) }
{
    jobs.push(CheckJob {
        place: Place { isa, gs, st: 0 },
        set: None,
    })?;
    add_sets(jobs, sent, isa, gs, group)
}

/// The jobs of an interchange's groups, each before those of its sets.
fn add_groups<'f, 'g, 'a>(
    jobs: &mut Vec<CheckJob<'f, 'g, 'a>>,
    sent: &Sent<'f, 'g, 'a>,
    isa: u32,
    interchange: &Interchange<'a>,
) -> Result<(), NoMemory>
    requires groups { length interchange.now.content.groups ≤ LONGEST_TEXT }
    requires sets { All (λ group. length group.sets ≤ LONGEST_TEXT) interchange.now.content.groups }
    ensures { OnOk result (map job_value jobs.new.items ≡ map job_value jobs.old.items
        ++ jobs_at (group_numbers_from isa 1 interchange.now.content.groups)
        (groups_asked sent.now [] interchange.now.content.groups)) }
{
    for index in 0..interchange.group_count() {
        let gs = index as u32 + 1;
        add_group(jobs, sent, isa, gs, &interchange.group(index))?;
    }
    Ok(())
}

/// The job of an interchange, and those of its groups.
fn add_sent<'f, 'g, 'a>(
    jobs: &mut Vec<CheckJob<'f, 'g, 'a>>,
    sent: &Sent<'f, 'g, 'a>,
    isa: u32,
    interchange: &Interchange<'a>,
) -> Result<(), NoMemory>
    requires groups { length interchange.now.content.groups ≤ LONGEST_TEXT }
    requires sets { All (λ group. length group.sets ≤ LONGEST_TEXT) interchange.now.content.groups }
    ensures { OnOk result (map job_value jobs.new.items ≡ map job_value jobs.old.items
        ++ record { place = place_at isa 0 0; set = None }
        ∷ jobs_at (group_numbers_from isa 1 interchange.now.content.groups)
        (groups_asked sent.now [] interchange.now.content.groups)) }
{
    jobs.push(CheckJob {
        place: Place { isa, gs: 0, st: 0 },
        set: None,
    })?;
    add_groups(jobs, sent, isa, interchange)
}

/// The jobs of an interchange from `sender`, if it has no fault.
fn add_interchange<'f, 'g, 'a>(
    jobs: &mut Vec<CheckJob<'f, 'g, 'a>>,
    guides: &'f FastGuides<'g>,
    text: &'a [u8],
    isa: u32,
    sender: Option<usize>,
    entry: &IndexedInterchange<'a>,
) -> Result<(), NoMemory>
    requires sender { sender ≡ sender_of guides.now entry.now.interchange.header }
    requires sets { All (λ group. length group.sets ≤ LONGEST_TEXT) entry.now.interchange.content.groups }
    ensures { OnOk result (map job_value jobs.new.items
        ≡ map job_value jobs.old.items ++ entry_jobs text.entry.now guides.entry.now isa entry.now) }
{
    let interchange = entry.interchange();
    match (entry.fault(), sender) {
        (None, Some(sender)) => {
            let sent = Sent::new(text, guides, sender, interchange.header().delims());
            add_sent(jobs, &sent, isa, interchange)
        }
        _ => Ok(()),
    }
}

/// The jobs of the interchanges `entries` from these `senders`, before which the text has `before` others.
fn jobs_behind<'f, 'g, 'a>(
    alloc: Global,
    guides: &'f FastGuides<'g>,
    text: &'a [u8],
    before: usize,
    senders: &[Option<usize>],
    entries: &[IndexedInterchange<'a>],
) -> Result<Vec<CheckJob<'f, 'g, 'a>>, NoMemory>
    requires senders { senders.now ≡ senders_of guides.now entries.now }
    requires sets { All HasFewSets entries.now }
    requires few { before + length entries.now ≤ LONGEST_TEXT }
    ensures { IfOk result (λ v. map job_value v.items ≡ jobs_behind text.entry.now guides.entry.now (before + 1) entries.entry.now) }
{
    let mut jobs = Vec::new(alloc);
    for i in 0..entries.len() {
        let isa = (before + i) as u32 + 1;
        let sender = senders[i];
        add_interchange(&mut jobs, guides, text, isa, sender, &entries[i])?;
    }
    Ok(jobs)
}

/// The jobs of the interchanges `entries`, as `jobs_behind` makes them. At most `threads` threads make them, half of the interchanges each.
#[cycle(halves)]
fn jobs_by<'f, 'g: 'f, 'a, R: Threads + Sync>(
    rt: &R,
    alloc: Global,
    guides: &'f FastGuides<'g>,
    text: &'a [u8],
    before: usize,
    senders: &[Option<usize>],
    entries: &[IndexedInterchange<'a>],
    threads: u64,
) -> Result<Vec<CheckJob<'f, 'g, 'a>>, NoMemory>
    requires senders { senders.now ≡ senders_of guides.now entries.now }
    requires sets { All HasFewSets entries.now }
    requires few { before + length entries.now ≤ LONGEST_TEXT }
    ensures { IfOk result (λ v. map job_value v.items ≡ jobs_behind text.entry.now guides.entry.now (before + 1) entries.entry.now) }
{
    if threads < 2 || entries.len() < FEWEST {
        return jobs_behind(alloc, guides, text, before, senders, entries);
    }
    let (low, high) = entries.split_at(entries.len() / 2);
    let (low_senders, high_senders) = senders.split_at(entries.len() / 2);
    let behind = before + low.len();
    let front = move || -> Result<Vec<CheckJob<'_, '_, '_>>, NoMemory>
        requires { IsSync R.row × (2 ≤ threads) × (low_senders.now ≡ senders_of guides.now low.now) × All HasFewSets low.now
            × (before + length low.now ≤ LONGEST_TEXT) }
        ensures { IfOk result (λ v. map job_value v.items ≡ jobs_behind text.entry.now guides.entry.now (before + 1) low.entry.now) }
    {
        jobs_by(
            rt,
            alloc,
            guides,
            text,
            before,
            low_senders,
            low,
            threads / 2,
        )
    };
    let back = move || -> Result<Vec<CheckJob<'_, '_, '_>>, NoMemory>
        requires { IsSync R.row × (2 ≤ threads) × (high_senders.now ≡ senders_of guides.now high.now) × All HasFewSets high.now
            × (behind + length high.now ≤ LONGEST_TEXT) }
        ensures { IfOk result (λ v. map job_value v.items ≡ jobs_behind text.entry.now guides.entry.now (behind + 1) high.entry.now) }
    {
        jobs_by(
            rt,
            alloc,
            guides,
            text,
            behind,
            high_senders,
            high,
            threads - threads / 2,
        )
    };
    let (first, second) = join(rt, front, back);
    let mut jobs = first?;
    let mut more = second?;
    jobs.append(&mut more)?;
    Ok(jobs)
}

/// The jobs of the places of an `index` that is settled with the faults 1 to 8 and whose interchanges have these `senders`, one for each,
/// in their order: at the place of a set where it is, and its sender's guide for its GS01, GS08 and ST01; nothing at that of an interchange
/// or a group. An interchange with a fault has no place. They are made by `threads` threads at the most. X12.5, interchange; X12.6,
/// functional group and transaction set. The only error is out of memory.
pub(crate) fn check_jobs<'f, 'g: 'f, 'a, R: Threads + Sync>(
    rt: &R,
    alloc: Global,
    guides: &'f FastGuides<'g>,
    senders: &[Option<usize>],
    index: &Index<'a>,
    threads: u64,
) -> Result<Vec<CheckJob<'f, 'g, 'a>>, NoMemory>
    requires senders { senders.now ≡ senders_of guides.now index.now.entries }
    requires sets { All (λ e. All (λ group. length group.sets ≤ LONGEST_TEXT) e.interchange.content.groups) index.now.entries }
    ensures jobs { IfOk result (λ v. map job_value v.items ≡ jobs_of index.entry.now.text guides.entry.now index.entry.now.entries) }
    ensures places { IfOk result (λ v. (es : List IndexEntry) → index.entry.now.entries ≡ entries_alone guides.entry.now es
        → map (λ job. job.place) v.items ≡ places_of index.entry.now) }
    ensures spans { IfOk result (λ v. All (λ e. HasSpans index.entry.now.text e.interchange) index.entry.now.entries
        → AreSpans v.items) }
{
    let text = index.text();
    let entries = index.interchanges();
    let jobs = jobs_by(rt, alloc, guides, text, 0, senders, entries, threads)?;
    Ok(jobs)
}
