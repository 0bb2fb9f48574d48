//! The places of an index, recorded and checked by one worker up to 64.
ghost use Rattle.std.specs.Prelude.{◌≡◌, ◌≤◌, Contains, IfOk, length, map};
ghost use Rattle.std.specs.List.{All};
ghost use Rattle.x12_segs.specs.Words.{IsSetSpan};
ghost use Rattle.env_index.specs.Words.{HasSpans, places_of, span_of};
ghost use Rattle.worker_pool.specs.Jobs.{place_of};
ghost use Rattle.worker_pool.specs.Spans.{ArePlaced, AreSpans, IsJobSpan};

use env_index::{GroupEnvelope, Index, Interchange, read_interchange};
use guide_fast::FastGuide;
use hub_kinds::{Place, within_limit};
use job_pool::PoolFault;
use number_register::{Named, Register};
use std::alloc::Global;
use std::marker::Brand;
use std::sync::Wait;
use std::sync::ledger::Blank;
use std::test::Fail;
use std::thread::Threads;
use std::time::Clock;
use worker_pool::{CheckJob, Checked, Gate, SetJob, run_checks};
use x12_bytes::Delims;

/// The job at a place: of a set of the group its check.
fn job_at<'f, 'a>(
    place: Place,
    text: &'a [u8],
    delims: Delims,
    group: &GroupEnvelope<'_, 'a>,
    guide: &'f FastGuide<'a>,
) -> CheckJob<'f, 'a, 'a>
    requires { All (λ set. IsSetSpan text.now (span_of delims set)) group.now.sets }
    ensures { (result.place ≡ place) × IsJobSpan result }
{
    if place.st == 0 || place.st as usize > group.set_count() {
        return CheckJob { place, set: None };
    }
    let span = group.set(place.st as usize - 1).span(delims);
    let guide = Some(guide);
    CheckJob {
        place,
        set: Some(SetJob { text, span, guide }),
    }
}

/// A job at each of these places, those of a text's first group.
fn jobs_of<'f, 'a>(
    alloc: Global,
    text: &'a [u8],
    delims: Delims,
    group: &GroupEnvelope<'_, 'a>,
    places: &[Place],
    guide: &'f FastGuide<'a>,
) -> Result<Vec<CheckJob<'f, 'a, 'a>>, Fail>
    requires { All (λ set. IsSetSpan text.now (span_of delims set)) group.now.sets }
    ensures spans { IfOk result (λ v. AreSpans v.items) }
    ensures places { IfOk result (λ v. map place_of v.items ≡ places.now) }
{
    let mut jobs = Vec::new(alloc);
    for place in places {
        jobs.push(job_at(*place, text, delims, group, guide))?;
    }
    Ok(jobs)
}

fn jobs_in<'f, 'a>(
    alloc: Global,
    text: &'a [u8],
    interchange: &Interchange<'a>,
    places: &[Place],
    guide: &'f FastGuide<'a>,
) -> Result<Vec<CheckJob<'f, 'a, 'a>>, Fail>
    requires { HasSpans text.now interchange.now }
    ensures spans { IfOk result (λ v. AreSpans v.items) }
    ensures places { IfOk result (λ v. map place_of v.items ≡ places.now) }
{
    if interchange.group_count() == 0 {
        return Err("no group".into());
    }
    let delims = interchange.header().delims();
    let group = interchange.group(0);
    jobs_of(alloc, text, delims, &group, places, guide)
}

/// A job at each place of an index, whose text is one interchange of one group.
pub fn check_jobs<'f, 'a>(
    alloc: Global,
    index: &Index<'a>,
    guide: &'f FastGuide<'a>,
) -> Result<Vec<CheckJob<'f, 'a, 'a>>, Fail>
    ensures spans { IfOk result (λ v. AreSpans v.items) }
    ensures places { IfOk result (λ v. map place_of v.items ≡ places_of index.now) }
{
    let text = index.text();
    if !within_limit(text.len() as u64) {
        return Err("long text".into());
    }
    let places = index.places(alloc)?;
    match read_interchange(alloc, text, 0)? {
        None => Err("no interchange".into()),
        Some(interchange) => jobs_in(alloc, text, &interchange, places.as_slice(), guide),
    }
}

fn checks_named<
    'f,
    'i,
    'a,
    J: Named + Send + Sync,
    G: Gate + Sync,
    R: Threads + Wait + Clock + Sync,
>(
    rt: &R,
    alloc: Global,
    index: &'i Index<'a>,
    jobs: &[CheckJob<'f, 'a, 'a>],
    blank: Blank,
    workers: u64,
    gate: &G,
) -> Result<Checked<'i, 'a>, PoolFault>
    requires index { index.now ≡ J.index }
    requires spans { AreSpans jobs.now }
    requires places { map place_of jobs.now ≡ places_of J.index }
    requires few { length jobs.now ≤ 1000 }
    requires blank { (blank.name ≡ J.name) × (blank.parts ≡ J.parts) × (blank.parts ≡ 65) }
    requires workers { (1 ≤ workers) × (workers ≤ 64) }
    ensures { IfOk result (λ c. c.records.index ≡ J.index) }
{
    let Ok(register) = Register::<'i, 'a, J>::new(alloc, index, blank) else {
        return Err(PoolFault::NoMemory);
    };
    run_checks::<J, G, R>(rt, alloc, jobs, register, workers, gate)
}

/// By this many workers, after a gate; the register's name is picked here.
pub fn checks_of<'f, 'i, 'a, G: Gate + Sync, R: Threads + Wait + Clock + Sync>(
    rt: &R,
    alloc: Global,
    index: &'i Index<'a>,
    jobs: &[CheckJob<'f, 'a, 'a>],
    workers: u64,
    gate: &G,
) -> Result<Checked<'i, 'a>, PoolFault>
    requires spans { AreSpans jobs.now }
    requires places { map place_of jobs.now ≡ places_of index.now }
    requires few { length jobs.now ≤ 1000 }
    requires workers { (1 ≤ workers) × (workers ≤ 64) }
    ensures { IfOk result (λ c. c.records.index ≡ index.now) }
{
    checks_named::<Brand, G, R>(rt, alloc, index, jobs, Blank::new(65), workers, gate)
}
