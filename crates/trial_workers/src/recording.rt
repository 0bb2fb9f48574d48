//! The places of an index, recorded by threads that share a register, each with a share of its ledger.
ghost use Rattle.std.specs.Prelude.{◌≡◌, ◌<◌, ◌≤◌, Contains, IfOk, length, vec_len};
ghost use Rattle.env_index.specs.Words.{places_of};

use env_index::Index;
use hub_kinds::Place;
use job_pool::{PoolFault, Ran, Task, run_tasks};
use number_register::{Named, RecordLock, Records, Register, Share};
use std::alloc::{AllocError, Global};
use std::marker::Brand;
use std::sync::Wait;
use std::sync::ledger::Blank;
use std::thread::Threads;
use std::time::Clock;

/// A place that is listed.
pub fn place_at(places: &[Place], k: usize) -> Place
    requires { k < length places.now }
    ensures { Contains places.now result }
{
    places[k]
}

/// The places of the register's index, each to be recorded.
#[derive(Drop)]
struct Recording<'t, 'i, 'a, J: Named> {
    lock: &'t RecordLock<'i, 'a, J>,
    places: &'t [Place],
    ghost listed: { places.now ≡ places_of J.index },
}

/// A job's number, and whether its record was fresh.
#[derive(Drop)]
pub struct Told {
    pub number: u64,
    pub is_fresh: bool,
}

impl<'t, 'i, 'a, J: Named + Send + Sync> Task for Recording<'t, 'i, 'a, J> {
    type Own = Share<J>;

    type Done = Told;

    ghost count = { λ t. length t.places.now };

    ghost number_of = { λ d. d.number };

    fn run<R: Wait + Clock>(
        &self,
        rt: &R,
        own: &mut Share<J>,
        number: u64,
    ) -> Result<Told, AllocError> {
        let place = place_at(self.places, number as usize);
        let Ok(recorded) = self.lock.record_locked(rt, own, place) else {
            return Err(AllocError);
        };
        Ok(Told {
            number,
            is_fresh: recorded.is_fresh(),
        })
    }

    fn number(done: &Told) -> u64 {
        done.number
    }
}

fn take_shares<J: Named>(
    alloc: Global,
    register: &mut Register<'_, '_, J>,
    count: u64,
) -> Result<Vec<Share<J>>, AllocError>
    requires { (register.old ≡ 0) × (count ≤ 64) }
    ensures { IfOk result (λ v. (vec_len v ≡ count) × (register.new ≡ count)) }
{
    let mut shares = Vec::new(alloc);
    for _i in 0..count {
        shares.push(register.share())?;
    }
    Ok(shares)
}

/// What each job reported, and the records, opened after the last worker.
fn recorded_by<'i, 'a, J: Named + Send + Sync, R: Threads + Wait + Clock + Sync>(
    rt: &R,
    alloc: Global,
    index: &'i Index<'a>,
    places: &[Place],
    blank: Blank,
    workers: u64,
) -> Result<(Vec<Told>, Records<'i, 'a>), PoolFault>
    requires index { index.now ≡ J.index }
    requires places { (places.now ≡ places_of J.index) × (length places.now ≤ 4611686018427387904) }
    requires blank { (blank.name ≡ J.name) × (blank.parts ≡ J.parts) × (blank.parts ≡ 65) }
    requires workers { (1 ≤ workers) × (workers ≤ 64) }
    ensures { IfOk result (λ r. r.1.index ≡ J.index) }
{
    let Ok(mut register) = Register::<'i, 'a, J>::new(alloc, index, blank) else {
        return Err(PoolFault::NoMemory);
    };
    let Ok(shares) = take_shares::<J>(alloc, &mut register, workers) else {
        return Err(PoolFault::NoMemory);
    };
    let task = Recording::<'_, 'i, 'a, J> {
        lock: register.side(),
        places,
    };
    let Ran { owns, done, .. } = run_tasks::<Recording<'_, 'i, 'a, J>, R>(
        rt,
        alloc,
        &task,
        places.len() as u64,
        shares,
        workers,
    )?;
    Ok((done, register.open(owns)))
}

/// What is recorded of an index that the register's name is picked for.
pub fn recorded_of<'i, 'a, R: Threads + Wait + Clock + Sync>(
    rt: &R,
    alloc: Global,
    index: &'i Index<'a>,
    places: &[Place],
    workers: u64,
) -> Result<(Vec<Told>, Records<'i, 'a>), PoolFault>
    requires places { (places.now ≡ places_of index.now) × (length places.now ≤ 4611686018427387904) }
    requires workers { (1 ≤ workers) × (workers ≤ 64) }
    ensures { IfOk result (λ r. r.1.index ≡ index.now) }
{
    recorded_by::<Brand, R>(rt, alloc, index, places, Blank::new(65), workers)
}
