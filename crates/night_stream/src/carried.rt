ghost use Rattle.std.specs.Prelude.{◌≡◌, ◌+◌, ◌≤◌, ℕ, List, [], IfErr, IfOk, length};
ghost use Rattle.hub_kinds.specs.declared.limits.TheConstants.{LONGEST_TEXT};
ghost use Rattle.number_register.specs.SeenNumbers.{HaveSeen};
ghost use Rattle.night_batches.specs.Writing.{nothing_written};
ghost use Rattle.night_stream.specs.Carried.{CanGoOn, HasWorked};
ghost use Rattle.night_stream.specs.Crew.{IsReady};
ghost use Rattle.night_stream.specs.Stopped.{IsOfPool};

use crate::crew::Crew;
use crate::stopped::Stopped;
use cut_plan::Cuts;
use env_index::index_plain;
use hub_kinds::NoMemory;
use job_pool::ManyThreads;
use moment::At;
use night_batches::Writing;
use number_register::Seen;
use partner_setup::Setup;
use set_findings::{FastGuides, FoundAfter, SettledFaults, find_out_after, settle_after};
use std::alloc::Global;
use std::sync::Wait;
use std::thread::Threads;
use std::time::Clock;
use worker_pool::Gate;
use x12_bytes::HEADER_LEN;

/// What is carried of a night from batch to batch: the numbers of its interchanges, and what is written.
#[derive(Drop)]
pub(crate) struct Carried {
    /// The numbers of the interchanges without the faults 1 to 8.
    pub(crate) numbers: Seen,
    /// What is written.
    pub(crate) writing: Writing,
}

/// Nothing yet.
pub(crate) fn nothing_carried(alloc: Global, setup: &Setup) -> Result<Carried, NoMemory>
    ensures numbers { IfOk result (λ carried. HaveSeen carried.numbers []) }
    ensures writing { IfOk result (λ carried. carried.writing ≡ nothing_written setup.now) }
{
    let writing = Writing::new(alloc, setup)?;
    Ok(Carried {
        numbers: Seen::new(alloc),
        writing,
    })
}

/// Works on fewer bytes than a header has, or none, as a window often leaves: no worker is asked for.
fn add_without_workers<'a>(
    alloc: Global,
    setup: &'a Setup,
    at: &At,
    base: u64,
    carried: Carried,
    batch: &'a [u8],
) -> Result<Carried, NoMemory>
    requires few { base + length batch.now ≤ LONGEST_TEXT }
    requires numbers { (numbers : List (List ℕ)) × HaveSeen carried.numbers numbers }
    requires room { CanGoOn setup.now at.now base carried.writing }
    ensures { IfOk result (HasWorked batch.now setup.now at.now base carried) }
{
    let Carried { numbers, writing } = carried;
    let mut index = index_plain(alloc, batch)?;
    let settled = settle_after(alloc, setup, numbers, &mut index)?;
    let SettledFaults {
        faults,
        numbers,
        ..
    } = settled;
    index.settle(faults.as_slice());
    let writing = writing.add_batch(alloc, setup, at, base, &index)?;
    Ok(Carried { numbers, writing })
}

/// Works on a batch with as many bytes as an interchange needs: all of it is found out by the workers, and written after them.
fn add_shared<'g: 'a, 'a, G: Gate + Sync, R: Threads + Wait + Clock + Sync>(
    crew: &Crew<'_, R, G>,
    alloc: Global,
    setup: &'a Setup,
    guides: &FastGuides<'g>,
    at: &At,
    base: u64,
    carried: Carried,
    batch: &'a [u8],
) -> Result<Carried, Stopped>
    requires crew { IsReady crew.now }
    requires guides { guides.now ≡ setup.now }
    requires few { base + length batch.now ≤ LONGEST_TEXT }
    requires numbers { (numbers : List (List ℕ)) × HaveSeen carried.numbers numbers }
    requires room { CanGoOn setup.now at.now base carried.writing }
    ensures worked { IfOk result (HasWorked batch.now setup.now at.now base carried) }
    ensures pool { IfErr result IsOfPool }
{
    let Carried { numbers, writing } = carried;
    let cuts = Cuts::every(alloc, batch.len(), crew.piece)?;
    let found = find_out_after(
        crew.rt,
        alloc,
        setup,
        guides,
        batch,
        numbers,
        &cuts,
        crew.workers,
        crew.gate,
    )?;
    let FoundAfter {
        index,
        rows,
        numbers,
    } = found;
    let writers = ManyThreads {
        rt: crew.rt,
        workers: crew.workers,
    };
    let writing = writing.add_found(alloc, &writers, setup, at, base, &index, rows)?;
    Ok(Carried { numbers, writing })
}

/// Works on a batch, read as a separate text that begins at this offset of the stream.
pub(crate) fn add_batch<'g: 'a, 'a, G: Gate + Sync, R: Threads + Wait + Clock + Sync>(
    crew: &Crew<'_, R, G>,
    alloc: Global,
    setup: &'a Setup,
    guides: &FastGuides<'g>,
    at: &At,
    base: u64,
    carried: Carried,
    batch: &'a [u8],
) -> Result<Carried, Stopped>
    requires crew { IsReady crew.now }
    requires guides { guides.now ≡ setup.now }
    requires few { base + length batch.now ≤ LONGEST_TEXT }
    requires numbers { (numbers : List (List ℕ)) × HaveSeen carried.numbers numbers }
    requires room { CanGoOn setup.now at.now base carried.writing }
    ensures worked { IfOk result (HasWorked batch.now setup.now at.now base carried) }
    ensures pool { IfErr result IsOfPool }
{
    if batch.len() < HEADER_LEN {
        let carried = add_without_workers(alloc, setup, at, base, carried, batch)?;
        return Ok(carried);
    }
    add_shared(crew, alloc, setup, guides, at, base, carried, batch)
}
