ghost use Rattle.std.specs.Prelude.{◌≡◌, ◌≤◌, length, IfOk};
ghost use Rattle.hub_kinds.specs.declared.limits.TheConstants.{LONGEST_TEXT};
ghost use Rattle.env_index.specs.Words.{IsIndex};

use crate::heads::heads_by;
use crate::judged::judged_by;
use crate::marks::marks_by;
use cut_plan::Cuts;
use env_index::{Index, index_by_threads, judged_is_index};
use job_pool::PoolFault;
use std::alloc::Global;
use std::sync::Wait;
use std::thread::Threads;
use std::time::Clock;
use worker_pool::Gate;

/// The index of a text, read by workers piece by piece: with the least of the faults 1 to 7 of each interchange.
pub(crate) fn index_by<'a, G: Gate + Sync, R: Threads + Wait + Clock + Sync>(
    rt: &R,
    alloc: Global,
    text: &'a [u8],
    cuts: &Cuts,
    workers: u64,
    gate: &G,
) -> Result<Index<'a>, PoolFault>
    requires few { length text.now ≤ LONGEST_TEXT }
    requires cuts { cuts.now.text_len ≡ length text.now }
    requires workers { (1 ≤ workers) × (workers ≤ 64) }
    ensures { IfOk result (λ index. IsIndex text.entry.now index) }
{
    let heads = heads_by(rt, alloc, text, cuts, workers, gate)?;
    let marks = marks_by(rt, alloc, text, cuts, &heads, workers, gate)?;
    let Ok(mut index) = index_by_threads(rt, alloc, text, &heads, marks.as_slice(), workers) else {
        return Err(PoolFault::NoMemory);
    };
    let faults = judged_by(rt, alloc, &index, workers, gate)?;
    judged_is_index();
    index.settle(faults.as_slice());
    Ok(index)
}
