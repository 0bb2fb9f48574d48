ghost use Rattle.std.specs.Prelude.{◌≡◌, ◌<◌, ◌≤◌, [], map, IfOk, vec_len};
ghost use Rattle.std.specs.Thread.{IsSync};
ghost use Rattle.claim_desk.specs.Seats.{EachOnce};
ghost use Rattle.job_pool.specs.Work.{numbers_from};

use crate::crew::{Hall, Worked, crew};
use crate::order::in_order;
use crate::task::{PoolFault, Task};
use claim_desk::{Desk, Seat};
use std::alloc::Global;
use std::marker::Brand;
use std::sync::Wait;
use std::thread;
use std::thread::Threads;
use std::time::Clock;

/// What a pool gives back: the seat of its whole desk, what the workers had of their own, and an answer for each job, in the order
/// of the jobs.
#[derive(Drop)]
pub struct Ran<T: Task> {
    pub seat: Seat,
    pub owns: Vec<T::Own>,
    pub done: Vec<T::Done>,
}

// At one desk, which H names.
fn run_at<T: Task + Sync, H: Hall + Send + Sync, R: Threads + Wait + Clock + Sync>(
    rt: &R,
    alloc: Global,
    desk: &Desk,
    task: &T,
    seat: Seat,
    owns: Vec<T::Own>,
    workers: u64,
) -> Result<Ran<T>, PoolFault>
    requires jobs { desk.now.n ≡ T.count task.now }
    requires seat { (desk.now ≡ H.desk) × (seat.desk ≡ desk.now) × (seat.got ≡ []) × (seat.ended ≡ 0) × (seat.weight ≡ workers)
        × (1 ≤ workers) }
    requires whole { desk.now.seats ≡ workers }
    requires owns { vec_len owns ≡ workers }
    ensures got { IfOk result (λ r. EachOnce (T.count task.now) r.seat.got) }
    ensures owns { IfOk result (λ r. vec_len r.owns ≡ workers) }
    ensures done { IfOk result (λ r. map T.number_of r.done.items ≡ numbers_from 0 (T.count task.now)) }
{
    let list: Vec<T::Done> = Vec::new(alloc);
    let worked = thread::scope(
        thread::scope_env(),
        rt,
        move |scope| -> Result<Worked<T, H>, PoolFault>
            requires sync { IsSync R.row }
            requires list { list.items ≡ [] }
            requires jobs { desk.now.n ≡ T.count task.now }
            requires seat { (desk.now ≡ H.desk) × (seat.desk ≡ desk.now) × (seat.got ≡ []) × (seat.ended ≡ 0) × (seat.weight ≡ workers)
                × (1 ≤ workers) }
            requires owns { vec_len owns ≡ workers }
            ensures { IfOk result (λ w. (w.seat.weight ≡ workers) × (vec_len w.owns ≡ workers)) }
        { crew::<_, T, H, R>(scope, rt, alloc, desk, task, seat, owns, list, workers) },
    )?;
    let Worked {
        seat,
        owns,
        done,
        ..
    } = worked;
    // what the whole seat got is known by its weight
    let _ = seat.weight();
    let done = in_order::<T>(done, desk.count());
    Ok(Ran { seat, owns, done })
}

/// Does the jobs of a task, each once, with as many workers as there are things of their own, each worker but one in a thread of
/// its own: at most 2 ^ 62 jobs, 1 to 64 workers. It waits for all of them. Where one of them has no memory, or no thread can be
/// started, nothing is given.
pub fn run_tasks<T: Task + Sync, R: Threads + Wait + Clock + Sync>(
    rt: &R,
    alloc: Global,
    task: &T,
    count: u64,
    owns: Vec<T::Own>,
    workers: u64,
) -> Result<Ran<T>, PoolFault>
    requires jobs { (count ≡ T.count task.now) × (count ≤ 4611686018427387904) }
    requires workers { (1 ≤ workers) × (workers ≤ 64) }
    requires owns { vec_len owns ≡ workers }
    ensures got { IfOk result (λ r. EachOnce (T.count task.now) r.seat.got) }
    ensures owns { IfOk result (λ r. vec_len r.owns ≡ workers) }
    ensures done { IfOk result (λ r. map T.number_of r.done.items ≡ numbers_from 0 (T.count task.now)) }
{
    let Ok((desk, seat)) = Desk::new(alloc, count, workers) else {
        return Err(PoolFault::NoMemory);
    };
    run_at::<T, Brand, R>(rt, alloc, &desk, task, seat, owns, workers)
}
