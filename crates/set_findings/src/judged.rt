ghost use Rattle.std.specs.Prelude.{◌≡◌, ◌≤◌, ◌-◌, Some, map, slice_get, IfOk};
ghost use Rattle.std.specs.List.{All, AllZip};
ghost use Rattle.env_index.specs.Words.{faults_of};
ghost use Rattle.worker_pool.specs.Asked.{IsJudgeJob, judge_asked};
ghost use Rattle.set_findings.specs.Pieces.{judges_from};

use crate::few::are_few;
use env_index::Index;
use hub_kinds::{InterchangeFault, NoMemory};
use job_pool::PoolFault;
use std::alloc::Global;
use std::sync::Wait;
use std::thread::Threads;
use std::time::Clock;
use worker_pool::{Gate, JudgeDone, JudgeJob, run_jobs};

/// The least of the faults 1 to 7 of each interchange of an index is asked for.
fn judge_jobs<'i, 'a>(
    alloc: Global,
    index: &'i Index<'a>,
) -> Result<Vec<JudgeJob<'i, 'a>>, NoMemory>
    ensures jobs { IfOk result (λ v. map judge_asked v.items ≡ judges_from index.entry.now 1 index.entry.now.entries) }
    ensures ready { IfOk result (λ v. All IsJudgeJob v.items) }
{
    let mut jobs = Vec::new(alloc);
    for i in 0..index.interchanges().len() {
        let number = i + 1;
        jobs.push(JudgeJob { index, number })?;
    }
    Ok(jobs)
}

/// The faults that answers give, in their order.
fn faults_of_each(
    alloc: Global,
    done: &[JudgeDone<'_, '_>],
) -> Result<Vec<Option<InterchangeFault>>, NoMemory>
    ensures { IfOk result (λ v. AllZip (λ d fault. slice_get (faults_of d.index.entries) (d.number - 1) ≡ Some fault)
        done.now v.items) }
{
    let mut faults = Vec::new(alloc);
    for i in 0..done.len() {
        faults.push(done[i].fault())?;
    }
    Ok(faults)
}

/// The least of the faults 1 to 7 of each interchange of an index, judged by workers (X12.5, interchange; the faults' numbers are own).
pub(crate) fn judged_by<G: Gate + Sync, R: Threads + Wait + Clock + Sync>(
    rt: &R,
    alloc: Global,
    index: &Index<'_>,
    workers: u64,
    gate: &G,
) -> Result<Vec<Option<InterchangeFault>>, PoolFault>
    requires { (1 ≤ workers) × (workers ≤ 64) }
    ensures { IfOk result (λ v. v.items ≡ faults_of index.now.entries) }
{
    let Ok(jobs) = judge_jobs(alloc, index) else {
        return Err(PoolFault::NoMemory);
    };
    are_few(jobs.len())?;
    let done = run_jobs::<JudgeJob<'_, '_>, G, R>(rt, alloc, jobs.as_slice(), workers, gate)?;
    match faults_of_each(alloc, done.as_slice()) {
        Ok(faults) => Ok(faults),
        Err(_) => Err(PoolFault::NoMemory),
    }
}
