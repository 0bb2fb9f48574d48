ghost use Rattle.std.specs.Prelude.{◌≡◌, ◌≤◌, ℕ, List, length, IfOk};
ghost use Rattle.hub_kinds.specs.declared.limits.TheConstants.{LONGEST_TEXT};
ghost use Rattle.env_index.specs.Words.{IndexValue, IsIndex};
ghost use Rattle.set_answers.specs.Settled.{senders_of};
ghost use Rattle.set_findings.specs.Alone.{AreSettledBy, index_alone};
ghost use Rattle.set_findings.specs.Findings.{AreFound};

use crate::checking::{Done, checks_by};
use crate::findings::tell_each;
use crate::guides::FastGuides;
use crate::jobs::check_jobs;
use env_index::Index;
use hub_kinds::InterchangeFault;
use job_pool::PoolFault;
use set_check::Finding;
use std::alloc::Global;
use std::sync::Wait;
use std::thread::Threads;
use std::time::Clock;
use worker_pool::Gate;

/// All that is asked of the places of an `index`, which is settled with the faults 1 to 8, if its interchanges have these `senders`, and
/// these `faults` of 1 to 9.
pub(crate) fn worked_out<'g: 'a, 'a, G: Gate + Sync, R: Threads + Wait + Clock + Sync>(
    rt: &R,
    alloc: Global,
    guides: &FastGuides<'g>,
    index: &Index<'a>,
    senders: &[Option<usize>],
    faults: &[Option<InterchangeFault>],
    workers: u64,
    gate: &G,
) -> Result<Vec<Finding<'a>>, PoolFault>
    requires settled { (text : List ℕ) × (plain : IndexValue) × IsIndex text plain × (length text ≤ LONGEST_TEXT)
        × (index.now ≡ index_alone guides.now plain) }
    requires senders { senders.now ≡ senders_of guides.now index.now.entries }
    requires workers { (1 ≤ workers) × (workers ≤ 64) }
    ensures { IfOk result (λ v. (text : List ℕ) (plain : IndexValue) → IsIndex text plain
        → index.now ≡ index_alone guides.now plain → AreSettledBy guides.now plain.entries faults.now
        → AreFound guides.now plain faults.now v.items) }
{
    let Ok(jobs) = check_jobs(rt, alloc, guides, senders, index, workers) else {
        return Err(PoolFault::NoMemory);
    };
    let Done { done, full, .. } = checks_by(rt, alloc, index, jobs.as_slice(), workers, gate)?;
    let mut findings = done;
    tell_each(&full, faults, findings.as_mut_slice());
    Ok(findings)
}
