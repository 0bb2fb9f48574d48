ghost use Rattle.std.specs.Prelude.{◌≡◌, ◌≤◌, length, map, IfOk};
ghost use Rattle.std.specs.List.{All};
ghost use Rattle.env_index.specs.Words.{AreMarks};
ghost use Rattle.set_findings.specs.Pieces.{IsMarksOf, marks_given};

use crate::few::are_few;
use cut_plan::Cuts;
use env_marks::{Marks, guess};
use hub_kinds::NoMemory;
use isa_scan::PieceHeads;
use job_pool::PoolFault;
use std::alloc::Global;
use std::sync::Wait;
use std::thread::Threads;
use std::time::Clock;
use worker_pool::{Gate, MarksDone, MarksJob, run_jobs};

/// The marks of each piece for which a pair is likely are asked for, under that pair.
fn marks_jobs<'t>(
    alloc: Global,
    text: &'t [u8],
    cuts: &Cuts,
    heads: &PieceHeads,
) -> Result<Vec<MarksJob<'t>>, NoMemory>
    requires { cuts.now.text_len ≡ length text.now }
    ensures { IfOk result (λ v. All (IsMarksOf text.entry.now) v.items) }
{
    let mut jobs = Vec::new(alloc);
    for i in 0..cuts.count() {
        let piece = cuts.piece(i);
        if let Some(pair) = guess(heads, piece) {
            jobs.push(MarksJob { text, piece, pair })?;
        }
    }
    Ok(jobs)
}

/// The marks that answers give, in their order.
fn marks_of_each(alloc: Global, done: Vec<MarksDone<'_>>) -> Result<Vec<Marks>, NoMemory>
    ensures { IfOk result (λ v. v.items ≡ map marks_given done.entry.items) }
{
    let mut list = Vec::new(alloc);
    for answer in done {
        list.push(answer.into_marks())?;
    }
    Ok(list)
}

/// The marks of the pieces of a text, taken by workers, each under the pair that is likely there; none of a piece where none is (X12.6,
/// segment and segment terminator).
pub(crate) fn marks_by<G: Gate + Sync, R: Threads + Wait + Clock + Sync>(
    rt: &R,
    alloc: Global,
    text: &[u8],
    cuts: &Cuts,
    heads: &PieceHeads,
    workers: u64,
    gate: &G,
) -> Result<Vec<Marks>, PoolFault>
    requires cuts { cuts.now.text_len ≡ length text.now }
    requires workers { (1 ≤ workers) × (workers ≤ 64) }
    ensures { IfOk result (λ v. All (AreMarks text.now) v.items) }
{
    let Ok(jobs) = marks_jobs(alloc, text, cuts, heads) else {
        return Err(PoolFault::NoMemory);
    };
    are_few(jobs.len())?;
    let done = run_jobs::<MarksJob<'_>, G, R>(rt, alloc, jobs.as_slice(), workers, gate)?;
    match marks_of_each(alloc, done) {
        Ok(list) => Ok(list),
        Err(_) => Err(PoolFault::NoMemory),
    }
}
