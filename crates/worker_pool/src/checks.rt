ghost use Rattle.std.specs.Prelude.{◌≡◌, ◌<◌, ◌≤◌, Contains, Some, map, length, slice_get, vec_len, IfOk};
ghost use Rattle.std.specs.List.{All};
ghost use Rattle.claim_desk.specs.Seats.{EachOnce};
ghost use Rattle.env_index.specs.Words.{places_of};
ghost use Rattle.job_pool.specs.Work.{numbers_from};
ghost use Rattle.worker_pool.specs.Jobs.{job_of, job_value, number_of};
ghost use Rattle.worker_pool.specs.Spans.{ArePlaced, AreSpans};

use crate::gate::Gate;
use crate::job::CheckJob;
use crate::place_job::PlaceJob;
use claim_desk::Seat;
use job_pool::{PoolFault, Ran, Task, run_tasks};
use number_register::{Named, RecordLock, Records, Register, Share};
use set_check::Finding;
use std::alloc::{AllocError, Global};
use std::marker::{Brand, Model, PhantomData};
use std::sync::Wait;
use std::thread::Threads;
use std::time::Clock;

// Names one list of jobs.
pub(crate) trait Checks {
    ghost use Rattle.std.specs.Prelude.{List};
    ghost use Rattle.worker_pool.specs.Jobs.{JobValue};

    ghost jobs: { List JobValue };
}

impl Checks for Brand {
    ghost use Rattle.std.specs.Prelude.{[]};

    ghost jobs = { [] };
}

// An answer to one of the jobs that N names. Contracts see its number.
#[derive(Drop)]
struct BrandedCheck<K: PlaceJob, N: Checks> {
    done: K::Done,
    of: PhantomData<N>,
}

impl<K: PlaceJob, N: Checks> Model for BrandedCheck<K, N> {
    ghost use Rattle.std.specs.Prelude.{◌≡◌, ℕ, Some, slice_get};

    ghost Value = { ℕ };

    ghost view = { λ d. K.number_of d.done };

    ghost invariant = { λ d. slice_get N.jobs (K.number_of d.done) ≡ Some (K.answers d.done) };
}

// The jobs that N names, at places of the index that J names. Contracts see how many they are.
#[derive(Drop)]
struct Checking<'t, 'i, 'a, J: Named, K: PlaceJob, G, N: Checks> {
    alloc: Global,
    jobs: &'t [K],
    lock: &'t RecordLock<'i, 'a, J>,
    gate: &'t G,
    of: PhantomData<N>,
}

impl<'t, 'i, 'a, J: Named, K: PlaceJob, G, N: Checks> Model for Checking<'t, 'i, 'a, J, K, G, N> {
    ghost use Rattle.std.specs.Prelude.{◌≡◌, ℕ, Contains, length, map};
    ghost use Rattle.std.specs.List.{All};
    ghost use Rattle.env_index.specs.Words.{places_of};

    ghost Value = { ℕ };

    ghost view = { λ t. length t.jobs.now };

    ghost invariant = { λ t. (map K.asks t.jobs.now ≡ N.jobs) × All K.is_ready t.jobs.now
        × All (λ j. Contains (places_of J.index) (K.asks j).place) t.jobs.now };
}

// A job of a list by its number.
fn job_at<K>(jobs: &[K], number: u64) -> &K
    requires { number < length jobs.now }
    ensures { slice_get jobs.entry.now number ≡ Some result.now }
{
    &jobs[number as usize]
}

impl<
    't,
    'i,
    'a,
    J: Named + Send + Sync,
    K: PlaceJob + Sync,
    G: Gate + Sync,
    N: Checks + Send + Sync,
> Task for Checking<'t, 'i, 'a, J, K, G, N> {
    type Own = Share<J>;

    type Done = BrandedCheck<K, N>;

    ghost count = { λ t. t };

    ghost number_of = { λ d. d };

    fn run<R: Wait + Clock>(
        &self,
        rt: &R,
        own: &mut Share<J>,
        number: u64,
    ) -> Result<BrandedCheck<K, N>, AllocError> {
        self.gate.enter(rt, number);
        let job = job_at::<K>(self.jobs, number);
        let Ok(recorded) = self.lock.record_locked(rt, own, job.place()) else {
            return Err(AllocError);
        };
        let Ok(done) = job.check(self.alloc, number, recorded) else {
            return Err(AllocError);
        };
        self.gate.answered(rt, number, &done);
        Ok(BrandedCheck {
            done,
            of: PhantomData,
        })
    }

    fn number(named: &BrandedCheck<K, N>) -> u64 {
        K::number(&named.done)
    }
}

// The answers in the order of their jobs, without the name.
fn check_unbranded<K: PlaceJob, N: Checks>(
    alloc: Global,
    list: Vec<BrandedCheck<K, N>>,
) -> Result<Vec<K::Done>, PoolFault>
    requires { list.items ≡ numbers_from 0 (length N.jobs) }
    ensures done { IfOk result (λ v. map K.answers v.items ≡ N.jobs) }
    ensures numbers { IfOk result (λ v. map K.number_of v.items ≡ numbers_from 0 (length N.jobs)) }
{
    let mut all = Vec::new(alloc);
    for named in list {
        let BrandedCheck { done, .. } = named;
        let Ok(()) = all.push(done) else {
            return Err(PoolFault::NoMemory);
        };
    }
    Ok(all)
}

// A share for each worker.
fn take_shares<J: Named>(
    alloc: Global,
    register: &mut Register<'_, '_, J>,
    workers: u64,
) -> Result<Vec<Share<J>>, AllocError>
    requires { (register.old ≡ 0) × (workers ≤ 64) }
    ensures { IfOk result (λ v. (vec_len v ≡ workers) × (register.new ≡ workers)) }
{
    let mut shares = Vec::new(alloc);
    for _worker in 0..workers {
        shares.push(register.share())?;
    }
    Ok(shares)
}

/// What was found out at the places of an index: the seat that the workers held together, an answer for each job, in the order of
/// the jobs, and the records.
#[derive(Drop)]
pub struct Checked<'i, 'a> {
    pub seat: Seat,
    pub done: Vec<Finding<'a>>,
    pub records: Records<'i, 'a>,
}

// The same for jobs of any type.
#[derive(Drop)]
struct Answered<'i, 'a, K: PlaceJob> {
    seat: Seat,
    done: Vec<K::Done>,
    records: Records<'i, 'a>,
}

fn checks_branded<
    'i,
    'a,
    J: Named + Send + Sync,
    K: PlaceJob + Sync,
    N: Checks + Send + Sync,
    G: Gate + Sync,
    R: Threads + Wait + Clock + Sync,
>(
    rt: &R,
    alloc: Global,
    jobs: &[K],
    register: Register<'i, 'a, J>,
    shares: Vec<Share<J>>,
    workers: u64,
    gate: &G,
) -> Result<Answered<'i, 'a, K>, PoolFault>
    requires named { map K.asks jobs.now ≡ N.jobs }
    requires ready { All K.is_ready jobs.now }
    requires places { All (λ j. Contains (places_of J.index) (K.asks j).place) jobs.now }
    requires few { length jobs.now ≤ 4611686018427387904 }
    requires workers { (1 ≤ workers) × (workers ≤ 64) }
    requires shares { (vec_len shares ≡ workers) × (register ≡ workers) }
    ensures seat { IfOk result (λ c. EachOnce (length jobs.now) c.seat.got) }
    ensures done { IfOk result (λ c. map K.answers c.done.items ≡ map K.asks jobs.now) }
    ensures numbers { IfOk result (λ c. map K.number_of c.done.items ≡ numbers_from 0 (length jobs.now)) }
    ensures records { IfOk result (λ c. c.records.index ≡ J.index) }
{
    let task = Checking::<'_, 'i, 'a, J, K, G, N> {
        alloc,
        jobs,
        lock: register.side(),
        gate,
        of: PhantomData,
    };
    let Ran { seat, owns, done } = run_tasks::<Checking<'_, 'i, 'a, J, K, G, N>, R>(
        rt,
        alloc,
        &task,
        jobs.len() as u64,
        shares,
        workers,
    )?;
    let done = check_unbranded::<K, N>(alloc, done)?;
    Ok(Answered {
        seat,
        done,
        records: register.open(owns),
    })
}

/// Records the place of each job and checks its set, each once, by this many workers, each but one in a separate thread: at most
/// 2 ^ 62 jobs, 1 to 64 workers. It gives an answer to each job, in the order of the jobs, and the records, opened after the last
/// worker. Where one of them has no memory, or no thread can be started, nothing is given.
pub fn run_checks<
    'f,
    'g: 'a,
    'i,
    'a,
    J: Named + Send + Sync,
    G: Gate + Sync,
    R: Threads + Wait + Clock + Sync,
>(
    rt: &R,
    alloc: Global,
    jobs: &[CheckJob<'f, 'g, 'a>],
    register: Register<'i, 'a, J>,
    workers: u64,
    gate: &G,
) -> Result<Checked<'i, 'a>, PoolFault>
    requires spans { AreSpans jobs.now }
    requires places { ArePlaced (places_of J.index) jobs.now }
    requires few { length jobs.now ≤ 4611686018427387904 }
    requires workers { (1 ≤ workers) × (workers ≤ 64) }
    requires fresh { register ≡ 0 }
    ensures seat { IfOk result (λ c. EachOnce (length jobs.now) c.seat.got) }
    ensures done { IfOk result (λ c. map job_of c.done.items ≡ map job_value jobs.now) }
    ensures numbers { IfOk result (λ c. map number_of c.done.items ≡ numbers_from 0 (length jobs.now)) }
    ensures records { IfOk result (λ c. c.records.index ≡ J.index) }
{
    let mut register = register;
    let Ok(shares) = take_shares::<J>(alloc, &mut register, workers) else {
        return Err(PoolFault::NoMemory);
    };
    let Answered {
        seat,
        done,
        records,
    } = checks_branded::<J, CheckJob<'f, 'g, 'a>, Brand, G, R>(
        rt, alloc, jobs, register, shares, workers, gate,
    )?;
    Ok(Checked {
        seat,
        done,
        records,
    })
}
