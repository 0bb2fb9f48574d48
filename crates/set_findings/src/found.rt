ghost use Rattle.std.specs.Prelude.{◌≡◌, ◌≤◌, ℕ, List, length, IfOk};
ghost use Rattle.hub_kinds.specs.declared.limits.TheConstants.{LONGEST_TEXT};
ghost use Rattle.number_register.specs.SeenNumbers.{HaveSeen};
ghost use Rattle.set_findings.specs.FoundOut.{IsFoundAfter, IsFoundOut};

use crate::alone::{SettledFaults, settle_after};
use crate::guides::FastGuides;
use crate::index::index_by;
use crate::work::worked_out;
use cut_plan::Cuts;
use env_index::Index;
use job_pool::PoolFault;
use number_register::Seen;
use partner_setup::Setup;
use set_answers::FoundRows;
use std::alloc::Global;
use std::sync::Wait;
use std::thread::Threads;
use std::time::Clock;
use worker_pool::Gate;

/// What was found out about a text before it is answered.
#[derive(Drop)]
pub struct FoundText<'a> {
    /// Its index, settled with the faults 1 to 9.
    pub index: Index<'a>,
    /// Who sent each of its interchanges, and what was found out at each of their places.
    pub rows: FoundRows<'a>,
}

/// What is found of a text that is after others.
#[derive(Drop)]
pub struct FoundAfter<'a> {
    /// Its index, settled with the faults 1 to 9.
    pub index: Index<'a>,
    /// Who sent each of its interchanges, and what was found out at each of their places.
    pub rows: FoundRows<'a>,
    /// The numbers that are seen after the text.
    pub numbers: Seen,
}

fn without_numbers<'a>(found: FoundAfter<'a>) -> FoundText<'a>
    ensures index { result.index ≡ found.entry.index }
    ensures rows { result.rows ≡ found.entry.rows }
{
    let FoundAfter { index, rows, .. } = found;
    FoundText { index, rows }
}

/// Finds out by workers what is asked about a text of at most `LONGEST_TEXT` bytes before it is answered: its index, how each set is
/// checked by its sender's compiled guide, and whether an earlier place has the number of a place. The text is cut into pieces as the cuts
/// say; there are 1 to 64 workers; the gate is entered before each job and informed of its answer after it. Errors: memory or a thread is
/// wanting. X12.5, interchange; X12.6, functional group and transaction set.
pub fn find_out<'g: 'a, 'a, G: Gate + Sync, R: Threads + Wait + Clock + Sync>(
    rt: &R,
    alloc: Global,
    setup: &'a Setup,
    guides: &FastGuides<'g>,
    text: &'a [u8],
    cuts: &Cuts,
    workers: u64,
    gate: &G,
) -> Result<FoundText<'a>, PoolFault>
    requires few { length text.now ≤ LONGEST_TEXT }
    requires guides { guides.now ≡ setup.now }
    requires cuts { cuts.now.text_len ≡ length text.now }
    requires workers { (1 ≤ workers) × (workers ≤ 64) }
    ensures { IfOk result (λ found. IsFoundOut text.entry.now setup.entry.now found) }
{
    let seen = Seen::new(alloc);
    let found = find_out_after(rt, alloc, setup, guides, text, seen, cuts, workers, gate)?;
    Ok(without_numbers(found))
}

/// Finds out about a text after earlier interchanges, by the numbers of those of them that have none of the faults 1 to 8; and the numbers
/// after the text. An error leaves no numbers.
pub fn find_out_after<'g: 'a, 'a, G: Gate + Sync, R: Threads + Wait + Clock + Sync>(
    rt: &R,
    alloc: Global,
    setup: &'a Setup,
    guides: &FastGuides<'g>,
    text: &'a [u8],
    seen: Seen,
    cuts: &Cuts,
    workers: u64,
    gate: &G,
) -> Result<FoundAfter<'a>, PoolFault>
    requires few { length text.now ≤ LONGEST_TEXT }
    requires guides { guides.now ≡ setup.now }
    requires cuts { cuts.now.text_len ≡ length text.now }
    requires workers { (1 ≤ workers) × (workers ≤ 64) }
    requires seen { (before : List (List ℕ)) × HaveSeen seen before }
    ensures { IfOk result (λ found. IsFoundAfter text.entry.now setup.entry.now seen found) }
{
    let mut index = index_by(rt, alloc, text, cuts, workers, gate)?;
    let Ok(settled) = settle_after(alloc, setup, seen, &mut index) else {
        return Err(PoolFault::NoMemory);
    };
    let SettledFaults {
        senders,
        faults,
        numbers,
    } = settled;
    let findings = worked_out(
        rt,
        alloc,
        guides,
        &index,
        senders.as_slice(),
        faults.as_slice(),
        workers,
        gate,
    )?;
    index.settle(faults.as_slice());
    let rows = FoundRows { senders, findings };
    Ok(FoundAfter {
        index,
        rows,
        numbers,
    })
}
