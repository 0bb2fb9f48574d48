ghost use Rattle.std.specs.Prelude.{◌≡◌, ◌<◌, ◌≤◌, ◌+◌, ◌++◌, Some, IfOk, length, slice_get};
ghost use Rattle.std.specs.Thread.{IsSync};
ghost use Rattle.partner_setup.specs.declared.partner.Partner.{Partner};
ghost use Rattle.partner_setup.specs.Sound.{AreCounters};
ghost use Rattle.night_batches.specs.ByPlace.{AreClosedFrom, box_behind, next_behind, sent_at};
ghost use Rattle.night_batches.specs.Night.{counters_by};

use count_numbers::{interchange_count, num};
use hub_kinds::{Counters, NoMemory};
use mailbox::{RenderedSets, Woven, close};
use moment::At;
use partner_setup::Setup;
use set_answers::Acknowledgments;
use std::alloc::Global;
use std::thread::{Threads, join};

/// What a night closes with for one partner.
#[derive(Drop)]
struct Closed {
    text: Woven,
    next: Counters,
}

/// What a night closes with for partners, one after the other: the mailbox of each, and the counters from which its next night continues.
#[derive(Drop)]
pub(crate) struct AllClosed {
    /// The mailboxes.
    pub(crate) boxes: Vec<Woven>,
    /// The next counters.
    pub(crate) next: Vec<Counters>,
}

/// The counters after this many acknowledgments, which have this many groups, and after this many delivered sets, which have this many.
fn counters_by(
    now: Counters,
    cap: u32,
    acknowledgments: u64,
    groups: u64,
    sets: u64,
    delivered_groups: u64,
) -> Counters
    requires counters { AreCounters now }
    requires cap { 1 ≤ cap }
    ensures { result ≡ counters_by now cap acknowledgments groups sets delivered_groups }
{
    let first = num(now.interchange, acknowledgments);
    let first_group = num(now.group, groups);
    Counters {
        interchange: num(first, interchange_count(cap, sets)),
        group: num(first_group, delivered_groups),
        set: num(now.set, sets),
    }
}

/// The next counters of the partner at a place, to whom this many sets are delivered in this many groups.
fn next_at(
    setup: &Setup,
    place: usize,
    file: &Acknowledgments,
    sets: u64,
    delivered_groups: u64,
) -> Counters
    requires { place < length setup.now.partners }
    ensures { (p : Partner) → slice_get setup.now.partners place ≡ Some p
        → result ≡ counters_by p.counters p.cap file.now.count file.now.groups sets delivered_groups }
{
    let partner = &setup.partners()[place];
    counters_by(
        partner.counters,
        partner.cap,
        file.count(),
        file.groups(),
        sets,
        delivered_groups,
    )
}

/// What a night closes with for the partner at a place, by its acknowledgments and the sets that were written for it, which are given
/// up.
fn close_at(
    alloc: Global,
    setup: &Setup,
    place: usize,
    at: &At,
    file: &Acknowledgments,
    sets: RenderedSets,
) -> Result<Closed, NoMemory>
    requires { place < length setup.now.partners }
    ensures text { (p : Partner) → slice_get setup.now.partners place ≡ Some p
        → IfOk result (λ closed. closed.text ≡ box_behind setup.now at.now file.now sets p) }
    ensures next { (p : Partner) → slice_get setup.now.partners place ≡ Some p
        → IfOk result (λ closed. closed.next ≡ next_behind file.now sets p) }
{
    let acknowledgments = file.count();
    let groups = file.groups();
    let count = sets.count();
    let mailbox = close(alloc, setup, place, at, acknowledgments, groups, sets)?;
    let next = next_at(setup, place, file, count, mailbox.groups);
    Ok(Closed {
        text: mailbox.text,
        next,
    })
}

/// What a night closes with for the partners from the place `from` on, by the sets that were written for each.
pub(crate) fn close_from(
    alloc: Global,
    setup: &Setup,
    at: &At,
    files: &[Acknowledgments],
    from: usize,
    boxes: Vec<RenderedSets>,
) -> Result<AllClosed, NoMemory>
    requires files { length files.now ≡ length setup.now.partners }
    requires boxes { from + length boxes.items ≤ length setup.now.partners }
    ensures { IfOk result (λ closed. AreClosedFrom setup.now at.now files.now from boxes.items
        closed.boxes.items closed.next.items) }
{
    let mut texts = Vec::new(alloc);
    let mut counters = Vec::new(alloc);
    for sets in boxes {
        let count = counters.len();
        let place = from + count;
        let closed = close_at(alloc, setup, place, at, &files[place], sets)?;
        texts.push(closed.text)?;
        counters.push(closed.next)?;
    }
    Ok(AllClosed {
        boxes: texts,
        next: counters,
    })
}

/// What a night closes with for partners, and after it for more.
fn with_more(first: AllClosed, more: AllClosed) -> Result<AllClosed, NoMemory>
    ensures boxes { IfOk result (λ all. all.boxes.items ≡ first.boxes.items ++ more.boxes.items) }
    ensures next { IfOk result (λ all. all.next.items ≡ first.next.items ++ more.next.items) }
{
    let AllClosed {
        mut boxes,
        mut next,
    } = first;
    let AllClosed {
        boxes: mut more_boxes,
        next: mut more_next,
    } = more;
    boxes.append(&mut more_boxes)?;
    next.append(&mut more_next)?;
    Ok(AllClosed { boxes, next })
}

/// The same as `close_from`, by this many threads at the most: each half of the partners by half of them.
#[cycle(halves)]
pub(crate) fn close_by<R: Threads + Sync>(
    rt: &R,
    setup: &Setup,
    at: &At,
    files: &[Acknowledgments],
    from: usize,
    boxes: Vec<RenderedSets>,
    threads: u64,
) -> Result<AllClosed, NoMemory>
    requires files { length files.now ≡ length setup.now.partners }
    requires boxes { from + length boxes.items ≤ length setup.now.partners }
    ensures { IfOk result (λ closed. AreClosedFrom setup.now at.now files.now from boxes.items
        closed.boxes.items closed.next.items) }
{
    if threads < 2 || boxes.len() < 2 {
        let alloc = *boxes.allocator();
        return close_from(alloc, setup, at, files, from, boxes);
    }
    let mut low = boxes;
    let half = low.len() / 2;
    let high = low.split_off(half)?;
    let behind = from + half;
    let front = move || -> Result<AllClosed, NoMemory>
        requires { IsSync R.row × (2 ≤ threads) × (length files.now ≡ length setup.now.partners)
            × (from + length low.items ≤ length setup.now.partners) }
        ensures { IfOk result (λ closed. AreClosedFrom setup.entry.now at.entry.now files.entry.now from low.items
            closed.boxes.items closed.next.items) }
    { close_by(rt, setup, at, files, from, low, threads / 2) };
    let back = move || -> Result<AllClosed, NoMemory>
        requires { IsSync R.row × (2 ≤ threads) × (length files.now ≡ length setup.now.partners)
            × (behind + length high.items ≤ length setup.now.partners) }
        ensures { IfOk result (λ closed. AreClosedFrom setup.entry.now at.entry.now files.entry.now behind high.items
            closed.boxes.items closed.next.items) }
    { close_by(rt, setup, at, files, behind, high, threads - threads / 2) };
    let (first, second) = join(rt, front, back);
    let all = with_more(first?, second?)?;
    Ok(all)
}
