//! Gates that make two workers meet, or one wait for the other, and what is recorded and checked after them.
ghost use Rattle.std.specs.Prelude.{◌≡◌, ◌≤◌, length, map};
ghost use Rattle.env_index.specs.Words.{places_of};
ghost use Rattle.worker_pool.specs.Jobs.{place_of};
ghost use Rattle.worker_pool.specs.Spans.{AreSpans};

use crate::checking::{check_jobs, checks_of};
use crate::phases::expect_heads;
use crate::records::settled;
use crate::texts::of_sets;
use env_index::Index;
use guide_fast::FastGuide;
use guide_toml::read_guide;
use guide_tree::Guide;
use hub_kinds::Place;
use std::alloc::Global;
use std::sync::Wait;
use std::sync::atomic::{AtomicU64, Ordering};
use std::test::Fail;
use std::thread;
use std::thread::Threads;
use std::time::{Clock, Duration};
use worker_pool::{CheckJob, Gate};

const GUIDE: &str = r#"name = "ORDER"
group = "PO"
set = "850"
version = "005010"
dictionary = []
nodes = [
 {seg="BEG", min=1, max=1, elements=["353 M ID 2 2"]},
]
"#;

const SETS: &[&str] = &["0001", "0002", "0001", "0003"];

/// How often a worker looks, a millisecond between.
const LOOKS: u64 = 10_000;

/// Waits until a count has come so far.
fn has_come<R: Wait + Clock>(rt: &R, count: &AtomicU64, wanted: u64) -> bool {
    for _ in 0..LOOKS {
        if count.load(Ordering::SeqCst) >= wanted {
            return true;
        }
        thread::sleep(rt, Duration::from_millis(1));
    }
    false
}

/// Jobs 0 and 1 come together, before and after.
#[derive(Drop)]
struct Pairs {
    entered: AtomicU64,
    left: AtomicU64,
    missed: AtomicU64,
}

impl Pairs {
    fn new() -> Pairs {
        Pairs {
            entered: AtomicU64::new(0),
            left: AtomicU64::new(0),
            missed: AtomicU64::new(0),
        }
    }

    fn meet<R: Wait + Clock>(&self, rt: &R, count: &AtomicU64, job: u64) {
        if job > 1 {
            return;
        }
        let came = count.fetch_add(1, Ordering::SeqCst);
        if !has_come(rt, count, (came | 1).wrapping_add(1)) {
            self.missed.fetch_add(1, Ordering::SeqCst);
        }
    }
}

impl Gate for Pairs {
    fn enter<R: Wait + Clock>(&self, rt: &R, job: u64) {
        self.meet(rt, &self.entered, job);
    }

    fn answered<R: Wait + Clock, D>(&self, rt: &R, job: u64, _done: &D) {
        self.meet(rt, &self.left, job);
    }
}

/// One job is entered only once the other is answered.
#[derive(Drop)]
struct Late {
    job: u64,
    other: u64,
    answered: AtomicU64,
    missed: AtomicU64,
}

impl Late {
    fn new(job: u64, other: u64) -> Late {
        Late {
            job,
            other,
            answered: AtomicU64::new(0),
            missed: AtomicU64::new(0),
        }
    }
}

impl Gate for Late {
    fn enter<R: Wait + Clock>(&self, rt: &R, job: u64) {
        if job == self.job && !has_come(rt, &self.answered, 1) {
            self.missed.fetch_add(1, Ordering::SeqCst);
        }
    }

    fn answered<R: Wait + Clock, D>(&self, _rt: &R, job: u64, _done: &D) {
        if job == self.other {
            self.answered.store(1, Ordering::SeqCst);
        }
    }
}

/// The places, in the order in which they were recorded after a gate; each set is found to want its BEG.
fn recorded_behind<'f, 'a, G: Gate + Sync, R: Threads + Wait + Clock + Sync>(
    rt: &R,
    alloc: Global,
    index: &Index<'a>,
    jobs: &[CheckJob<'f, 'a, 'a>],
    workers: u64,
    gate: &G,
) -> Result<Vec<Place>, Fail>
    requires spans { AreSpans jobs.now }
    requires places { map place_of jobs.now ≡ places_of index.now }
    requires few { length jobs.now ≤ 1000 }
    requires workers { (1 ≤ workers) × (workers ≤ 64) }
{
    let Ok(found) = checks_of(rt, alloc, index, jobs, workers, gate) else {
        return Err("refused".into());
    };
    let Ok(full) = found.records.finish() else {
        return Err("short".into());
    };
    let mut number = 0u64;
    for done in found.done {
        let place = done.place;
        if done.number != number {
            return Err("another order".into());
        }
        number = number.wrapping_add(1);
        let faults = match done.checked {
            None => 0,
            Some(set) => set.faults().len(),
        };
        if faults != usize::from(place.st > 0) {
            return Err("other faults".into());
        }
    }
    let mut places = Vec::new(alloc);
    places.extend_from_slice(full.recorded())?;
    Ok(places)
}

fn places_behind<G: Gate + Sync, R: Threads + Wait + Clock + Sync>(
    rt: &R,
    alloc: Global,
    workers: u64,
    gate: &G,
) -> Result<Vec<Place>, Fail>
    requires { (1 ≤ workers) × (workers ≤ 64) }
{
    let guide = read_guide(alloc, GUIDE.as_bytes())?;
    let text = of_sets(alloc, SETS)?;
    places_in(rt, alloc, text.as_slice(), &guide, workers, gate)
}

fn places_in<'a, G: Gate + Sync, R: Threads + Wait + Clock + Sync>(
    rt: &R,
    alloc: Global,
    text: &'a [u8],
    guide: &'a Guide,
    workers: u64,
    gate: &G,
) -> Result<Vec<Place>, Fail>
    requires { (1 ≤ workers) × (workers ≤ 64) }
{
    let fast = FastGuide::of(alloc, guide)?;
    let index = settled(alloc, text)?;
    let jobs = check_jobs(alloc, &index, &fast)?;
    if jobs.len() != 6 {
        return Err("another number of jobs".into());
    }
    recorded_behind(rt, alloc, &index, jobs.as_slice(), workers, gate)
}

/// Where a place is in a list.
fn position(places: &[Place], gs: u32, st: u32) -> usize {
    let mut at = 0usize;
    for place in places {
        if place.gs == gs && place.st == st {
            return at;
        }
        at = at.wrapping_add(1);
    }
    at
}

#[test]
fn all_are_recorded_and_checked(rt: HostRuntime) -> Result<(), Fail> {
    for workers in [1, 2, 7, 64] {
        let places = places_behind(&rt, rt.alloc(), workers, &worker_pool::OpenGate)?;
        assert_eq!(rt; places.len(), 6);
    }
    Ok(())
}

#[test]
fn two_workers_meet(rt: HostRuntime) -> Result<(), Fail> {
    let text = of_sets(rt.alloc(), SETS)?;
    for workers in [2, 64] {
        let pairs = Pairs::new();
        let places = places_behind(&rt, rt.alloc(), workers, &pairs)?;
        assert_eq!(rt; places.len(), 6);
        assert_eq!(rt; pairs.entered.load(Ordering::SeqCst), 2);
        assert_eq!(rt; pairs.missed.load(Ordering::SeqCst), 0);
        let pairs = Pairs::new();
        expect_heads(&rt, rt.alloc(), text.as_slice(), 200, workers, &pairs)?;
        assert_eq!(rt; pairs.left.load(Ordering::SeqCst), 2);
        assert_eq!(rt; pairs.missed.load(Ordering::SeqCst), 0);
    }
    Ok(())
}

/// The interchange has job 0, its group job 1.
#[test]
fn one_waits_for_the_other(rt: HostRuntime) -> Result<(), Fail> {
    for (job, other, workers) in [(0, 1, 2), (1, 0, 2), (0, 1, 64), (1, 0, 64)] {
        let late = Late::new(job, other);
        let places = places_behind(&rt, rt.alloc(), workers, &late)?;
        let interchange = position(places.as_slice(), 0, 0);
        let group = position(places.as_slice(), 1, 0);
        assert_eq!(rt; late.missed.load(Ordering::SeqCst), 0);
        assert_eq!(rt; group < interchange, job == 0);
    }
    Ok(())
}
