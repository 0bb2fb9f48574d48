ghost use Rattle.std.specs.Prelude.{◌≡◌, ◌≤◌, length, map, IfOk};
ghost use Rattle.std.specs.List.{All};
ghost use Rattle.cut_plan.specs.Plan.{IsPlan, pieces};
ghost use Rattle.isa_scan.specs.Heads.{heads_in};
ghost use Rattle.worker_pool.specs.Asked.{IsHeadsJob, heads_asked};
ghost use Rattle.set_findings.specs.Pieces.{heads_given, piece_asked};

use crate::few::are_few;
use cut_plan::Cuts;
use env_marks::gather;
use hub_kinds::NoMemory;
use isa_scan::PieceHeads;
use job_pool::PoolFault;
use std::alloc::Global;
use std::sync::Wait;
use std::thread::Threads;
use std::time::Clock;
use worker_pool::{Gate, HeadsDone, HeadsJob, run_jobs};

/// The headers of each piece are asked for.
fn heads_jobs<'t>(alloc: Global, text: &'t [u8], cuts: &Cuts) -> Result<Vec<HeadsJob<'t>>, NoMemory>
    requires { cuts.now.text_len ≡ length text.now }
    ensures jobs { IfOk result (λ v. map heads_asked v.items ≡ map (piece_asked text.entry.now) (pieces cuts.now)) }
    ensures ready { IfOk result (λ v. All IsHeadsJob v.items) }
    ensures plan { IfOk result (λ _. IsPlan cuts.now) }
{
    let mut jobs = Vec::new(alloc);
    for i in 0..cuts.count() {
        let piece = cuts.piece(i);
        jobs.push(HeadsJob { text, piece })?;
    }
    Ok(jobs)
}

/// The headers that answers give, in their order.
fn heads_of_each(alloc: Global, done: Vec<HeadsDone<'_>>) -> Result<Vec<PieceHeads>, NoMemory>
    ensures { IfOk result (λ v. v.items ≡ map heads_given done.entry.items) }
{
    let mut list = Vec::new(alloc);
    for answer in done {
        list.push(answer.into_heads())?;
    }
    Ok(list)
}

/// The headers of a text, found by workers piece by piece (X12.5, ISA).
pub(crate) fn heads_by<G: Gate + Sync, R: Threads + Wait + Clock + Sync>(
    rt: &R,
    alloc: Global,
    text: &[u8],
    cuts: &Cuts,
    workers: u64,
    gate: &G,
) -> Result<PieceHeads, PoolFault>
    requires cuts { cuts.now.text_len ≡ length text.now }
    requires workers { (1 ≤ workers) × (workers ≤ 64) }
    ensures { IfOk result (λ heads. heads ≡ heads_in text.now 0 (length text.now)) }
{
    let Ok(jobs) = heads_jobs(alloc, text, cuts) else {
        return Err(PoolFault::NoMemory);
    };
    are_few(jobs.len())?;
    let done = run_jobs::<HeadsJob<'_>, G, R>(rt, alloc, jobs.as_slice(), workers, gate)?;
    let Ok(list) = heads_of_each(alloc, done) else {
        return Err(PoolFault::NoMemory);
    };
    match gather(alloc, list) {
        Ok(heads) => Ok(heads),
        Err(_) => Err(PoolFault::NoMemory),
    }
}
