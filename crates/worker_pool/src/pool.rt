ghost use Rattle.std.specs.Prelude.{◌≡◌, ◌≤◌, Some, map, length, slice_get, vec_len, IfOk};
ghost use Rattle.std.specs.List.{All};
ghost use Rattle.job_pool.specs.Work.{numbers_from};

use crate::gate::Gate;
use crate::phase::Job;
use job_pool::{PoolFault, Ran, Task, run_tasks};
use std::alloc::{AllocError, Global};
use std::marker::{Brand, Model, PhantomData};
use std::sync::Wait;
use std::thread::Threads;
use std::time::Clock;

// Names one list of jobs: what comes back from a thread is known by its type alone.
pub(crate) trait Jobs<A> {
    ghost use Rattle.std.specs.Prelude.{List};

    ghost jobs: { List A };
}

impl<A> Jobs<A> for Brand {
    ghost use Rattle.std.specs.Prelude.{[]};

    ghost jobs = { [] };
}

// An answer to one of the jobs that N names. Contracts see its number.
#[derive(Drop)]
struct BrandedDone<J: Job, N: Jobs<J::Asked>> {
    done: J::Done,
    of: PhantomData<N>,
}

impl<J: Job, N: Jobs<J::Asked>> Model for BrandedDone<J, N> {
    ghost use Rattle.std.specs.Prelude.{◌≡◌, ℕ, Some, slice_get};

    ghost Value = { ℕ };

    ghost view = { λ d. J.number_of d.done };

    ghost invariant = { λ d. slice_get N.jobs (J.number_of d.done) ≡ Some (J.job_of d.done) };
}

// The jobs that N names. Contracts see how many they are.
#[derive(Drop)]
struct Working<'t, J: Job, G, N: Jobs<J::Asked>> {
    alloc: Global,
    jobs: &'t [J],
    gate: &'t G,
    of: PhantomData<N>,
}

impl<'t, J: Job, G, N: Jobs<J::Asked>> Model for Working<'t, J, G, N> {
    ghost use Rattle.std.specs.Prelude.{◌≡◌, ℕ, length, map};
    ghost use Rattle.std.specs.List.{All};

    ghost Value = { ℕ };

    ghost view = { λ t. length t.jobs.now };

    ghost invariant = { λ t. (map J.value t.jobs.now ≡ N.jobs) × All J.is_ready t.jobs.now };
}

impl<'t, J: Job + Sync, G: Gate + Sync, N: Jobs<J::Asked> + Send + Sync> Task
    for Working<'t, J, G, N> {
    type Own = u64;

    type Done = BrandedDone<J, N>;

    ghost count = { λ t. t };

    ghost number_of = { λ d. d };

    fn run<R: Wait + Clock>(
        &self,
        rt: &R,
        _own: &mut u64,
        number: u64,
    ) -> Result<BrandedDone<J, N>, AllocError> {
        self.gate.enter(rt, number);
        let Ok(done) = self.jobs[number as usize].run(self.alloc, number) else {
            return Err(AllocError);
        };
        self.gate.answered(rt, number, &done);
        Ok(BrandedDone {
            done,
            of: PhantomData,
        })
    }

    fn number(named: &BrandedDone<J, N>) -> u64 {
        J::number(&named.done)
    }
}

// The answers in the order of their jobs, without the name.
fn job_unbranded<J: Job, N: Jobs<J::Asked>>(
    alloc: Global,
    list: Vec<BrandedDone<J, N>>,
) -> Result<Vec<J::Done>, PoolFault>
    requires { list.items ≡ numbers_from 0 (length N.jobs) }
    ensures { IfOk result (λ v. map J.job_of v.items ≡ N.jobs) }
{
    let mut all = Vec::new(alloc);
    for named in list {
        let BrandedDone { done, .. } = named;
        let Ok(()) = all.push(done) else {
            return Err(PoolFault::NoMemory);
        };
    }
    Ok(all)
}

// This many workers, who have nothing of their own.
fn bare(alloc: Global, workers: u64) -> Result<Vec<u64>, AllocError>
    ensures { IfOk result (λ v. vec_len v ≡ workers) }
{
    let mut owns = Vec::new(alloc);
    for worker in 0..workers {
        owns.push(worker)?;
    }
    Ok(owns)
}

fn jobs_branded<
    J: Job + Sync,
    N: Jobs<J::Asked> + Send + Sync,
    G: Gate + Sync,
    R: Threads + Wait + Clock + Sync,
>(rt: &R, alloc: Global, jobs: &[J], workers: u64, gate: &G) -> Result<Vec<J::Done>, PoolFault>
    requires named { map J.value jobs.now ≡ N.jobs }
    requires ready { All J.is_ready jobs.now }
    requires few { length jobs.now ≤ 4611686018427387904 }
    requires workers { (1 ≤ workers) × (workers ≤ 64) }
    ensures { IfOk result (λ v. map J.job_of v.items ≡ map J.value jobs.now) }
{
    let Ok(owns) = bare(alloc, workers) else {
        return Err(PoolFault::NoMemory);
    };
    let task = Working::<'_, J, G, N> {
        alloc,
        jobs,
        gate,
        of: PhantomData,
    };
    let Ran { done, .. } = run_tasks::<Working<'_, J, G, N>, R>(
        rt,
        alloc,
        &task,
        jobs.len() as u64,
        owns,
        workers,
    )?;
    job_unbranded::<J, N>(alloc, done)
}

/// Does jobs, each once, by this many workers, each but one in a separate thread: at most 2 ^ 62 jobs, 1 to 64 workers. It gives an
/// answer to each, in the order of the jobs. Where one of them has no memory, or no thread can be started, nothing is given.
pub fn run_jobs<J: Job + Sync, G: Gate + Sync, R: Threads + Wait + Clock + Sync>(
    rt: &R,
    alloc: Global,
    jobs: &[J],
    workers: u64,
    gate: &G,
) -> Result<Vec<J::Done>, PoolFault>
    requires ready { All J.is_ready jobs.now }
    requires few { length jobs.now ≤ 4611686018427387904 }
    requires workers { (1 ≤ workers) × (workers ≤ 64) }
    ensures { IfOk result (λ v. map J.job_of v.items ≡ map J.value jobs.now) }
{
    jobs_branded::<J, Brand, G, R>(rt, alloc, jobs, workers, gate)
}
