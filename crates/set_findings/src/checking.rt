ghost use Rattle.std.specs.Prelude.{◌≡◌, ◌≤◌, length, map, IfOk};
ghost use Rattle.claim_desk.specs.Seats.{EachOnce};
ghost use Rattle.env_index.specs.Words.{places_of};
ghost use Rattle.job_pool.specs.Work.{numbers_from};
ghost use Rattle.work_core.specs.Complete.{Complete};
ghost use Rattle.worker_pool.specs.Jobs.{job_of, job_value, number_of, place_of, slot_of};
ghost use Rattle.worker_pool.specs.Spans.{AreSpans};

use crate::few::are_few;
use claim_desk::Seat;
use env_index::Index;
use job_pool::PoolFault;
use number_register::{FullRegister, Named, Register, finish_all};
use set_check::Finding;
use std::alloc::Global;
use std::marker::Brand;
use std::sync::Wait;
use std::sync::ledger::Blank;
use std::thread::Threads;
use std::time::Clock;
use worker_pool::{CheckJob, Checked, Gate, checks_are_complete, run_checks};

/// What was done at each place of an index, the seat of the workers that did it, and the full register of the index.
#[derive(Drop)]
pub(crate) struct Done<'i, 'a> {
    pub(crate) seat: Seat,
    pub(crate) done: Vec<Finding<'a>>,
    pub(crate) full: FullRegister<'i, 'a>,
}

/// What was done, which is all that there was to do, by the rule of any pool of workers.
fn all_done<'i, 'a>(
    jobs: &[CheckJob<'_, '_, '_>],
    seat: Seat,
    done: Vec<Finding<'a>>,
    full: FullRegister<'i, 'a>,
) -> Done<'i, 'a>
    requires places { map place_of jobs.now ≡ places_of full.index }
    requires seat { EachOnce (length jobs.now) seat.got }
    requires numbers { map number_of done.items ≡ numbers_from 0 (length jobs.now) }
    ensures complete { Complete (map slot_of jobs.now) result.seat.got result.full.recorded (map number_of result.done.items) }
    ensures done { result.done.items ≡ done.entry.items }
    ensures full { result.full ≡ full.entry }
{
    let _once = full.recorded();
    checks_are_complete(&full, jobs, &seat, done.as_slice());
    Done { seat, done, full }
}

/// By a register of the index that J names.
fn checks_named<
    'f,
    'g: 'a,
    'i,
    'a,
    J: Named + Send + Sync,
    G: Gate + Sync,
    R: Threads + Wait + Clock + Sync,
>(
    rt: &R,
    alloc: Global,
    index: &'i Index<'a>,
    jobs: &[CheckJob<'f, 'g, 'a>],
    blank: Blank,
    workers: u64,
    gate: &G,
) -> Result<Done<'i, 'a>, PoolFault>
    requires index { index.now ≡ J.index }
    requires blank { (blank.name ≡ J.name) × (blank.parts ≡ J.parts) × (blank.parts ≡ 65) }
    requires spans { AreSpans jobs.now }
    requires places { map place_of jobs.now ≡ places_of index.now }
    requires workers { (1 ≤ workers) × (workers ≤ 64) }
    ensures done { IfOk result (λ d. map job_of d.done.items ≡ map job_value jobs.now) }
    ensures full { IfOk result (λ d. d.full.index ≡ index.entry.now) }
    ensures complete { IfOk result (λ d. Complete (map slot_of jobs.now) d.seat.got d.full.recorded (map number_of d.done.items)) }
{
    are_few(jobs.len())?;
    let Ok(register) = Register::<'i, 'a, J>::new(alloc, index, blank) else {
        return Err(PoolFault::NoMemory);
    };
    let Checked {
        seat,
        done,
        records,
    } = run_checks::<J, G, R>(rt, alloc, jobs, register, workers, gate)?;
    match finish_all(alloc, records) {
        Ok(full) => Ok(all_done(jobs, seat, done, full)),
        Err(_) => Err(PoolFault::NoMemory),
    }
}

/// Each place of an index is recorded and its set checked, by workers: each job claimed once and finished once, each place recorded once,
/// and no other.
pub(crate) fn checks_by<'f, 'g: 'a, 'i, 'a, G: Gate + Sync, R: Threads + Wait + Clock + Sync>(
    rt: &R,
    alloc: Global,
    index: &'i Index<'a>,
    jobs: &[CheckJob<'f, 'g, 'a>],
    workers: u64,
    gate: &G,
) -> Result<Done<'i, 'a>, PoolFault>
    requires spans { AreSpans jobs.now }
    requires places { map place_of jobs.now ≡ places_of index.now }
    requires workers { (1 ≤ workers) × (workers ≤ 64) }
    ensures done { IfOk result (λ d. map job_of d.done.items ≡ map job_value jobs.now) }
    ensures full { IfOk result (λ d. d.full.index ≡ index.entry.now) }
    ensures complete { IfOk result (λ d. Complete (map slot_of jobs.now) d.seat.got d.full.recorded (map number_of d.done.items)) }
{
    checks_named::<Brand, G, R>(rt, alloc, index, jobs, Blank::new(65), workers, gate)
}
