ghost use Rattle.std.specs.Prelude.{◌≡◌, ◌+◌, ◌<◌, ◌≤◌, [], map, IfOk, vec_len};
ghost use Rattle.claim_desk.specs.Seats.{DeskName};

use crate::task::{PoolFault, Task};
use claim_desk::{Desk, Seat};
use std::alloc::{AllocError, Global};
use std::marker::{Brand, PhantomData};
use std::sync::Wait;
use std::thread::{JoinHandle, Scope, Threads};
use std::time::Clock;

// Names one desk: what comes back from a thread is known by its type alone.
pub(crate) trait Hall {
    ghost use Rattle.claim_desk.specs.Seats.{DeskName};

    ghost desk: { DeskName };
}

impl Hall for Brand {
    ghost use Rattle.job_pool.specs.NoDesk.{no_desk};

    ghost desk = { no_desk };
}

// What workers hand back: an answer for each number that their seat got.
#[derive(Drop)]
pub(crate) struct Worked<T: Task, H: Hall> {
    pub(crate) seat: Seat,
    pub(crate) owns: Vec<T::Own>,
    pub(crate) done: Vec<T::Done>,
    of: PhantomData<H>,
    ghost at_desk: { seat.desk ≡ H.desk },
    ghost all: { map T.number_of done.items ≡ seat.got },
    ghost ended: { 0 < seat.ended },
}

// What one worker hands back.
#[derive(Drop)]
struct Single<T: Task, H: Hall> {
    worked: Worked<T, H>,
    ghost one: { worked.seat.weight ≡ 1 },
    ghost own: { vec_len worked.owns ≡ 1 },
}

fn work_alone<T: Task, H: Hall, R: Wait + Clock>(
    rt: &R,
    alloc: Global,
    desk: &Desk,
    task: &T,
    seat: Seat,
    own: T::Own,
    list: Vec<T::Done>,
) -> Result<Single<T, H>, PoolFault>
    requires list { list.items ≡ [] }
    requires jobs { desk.now.n ≡ T.count task.now }
    requires seat { (desk.now ≡ H.desk) × (seat.desk ≡ desk.now) × (seat.got ≡ []) × (seat.ended ≡ 0) × (seat.weight ≡ 1) }
{
    let worked = work::<T, H, R>(rt, alloc, desk, task, seat, own, list)?;
    Ok(Single { worked })
}

fn work<T: Task, H: Hall, R: Wait + Clock>(
    rt: &R,
    alloc: Global,
    desk: &Desk,
    task: &T,
    seat: Seat,
    own: T::Own,
    list: Vec<T::Done>,
) -> Result<Worked<T, H>, PoolFault>
    requires list { list.items ≡ [] }
    requires jobs { desk.now.n ≡ T.count task.now }
    requires seat { (desk.now ≡ H.desk) × (seat.desk ≡ desk.now) × (seat.got ≡ []) × (seat.ended ≡ 0) }
    ensures { IfOk result (λ w. (w.seat.weight ≡ seat.weight) × (vec_len w.owns ≡ 1)) }
{
    let mut seat = seat;
    let mut own = own;
    let mut done = list;
    for _ in rt.forever() {
        let Some(number) = desk.claim(&mut seat) else {
            break;
        };
        let Ok(answer) = task.run(rt, &mut own, number) else {
            return Err(PoolFault::NoMemory);
        };
        let Ok(()) = done.push(answer) else {
            return Err(PoolFault::NoMemory);
        };
    }
    let mut owns = Vec::new(alloc);
    let Ok(()) = owns.push(own) else {
        return Err(PoolFault::NoMemory);
    };
    Ok(hand_back(seat, owns, done))
}

fn hand_back<T: Task, H: Hall>(seat: Seat, owns: Vec<T::Own>, done: Vec<T::Done>) -> Worked<T, H>
    requires { (seat.desk ≡ H.desk) × (map T.number_of done.items ≡ seat.got) × (0 < seat.ended) }
    ensures { (result.seat ≡ seat) × (result.owns ≡ owns) }
{
    Worked {
        seat,
        owns,
        done,
        of: PhantomData,
    }
}

fn joined<T: Task, H: Hall>(
    desk: &Desk,
    own: Worked<T, H>,
    other: Worked<T, H>,
) -> Result<Worked<T, H>, PoolFault>
    requires { desk.now ≡ H.desk }
    ensures weight { IfOk result (λ w. w.seat.weight ≡ own.seat.weight + other.seat.weight) }
    ensures owns { IfOk result (λ w. vec_len w.owns ≡ vec_len own.owns + vec_len other.owns) }
{
    let Worked {
        mut seat,
        mut owns,
        mut done,
        ..
    } = own;
    let Worked {
        seat: theirs,
        owns: their_owns,
        done: more,
        ..
    } = other;
    desk.join(&mut seat, theirs);
    let mut more = more;
    let mut their_owns = their_owns;
    let Ok(()) = done.append(&mut more) else {
        return Err(PoolFault::NoMemory);
    };
    let Ok(()) = owns.append(&mut their_owns) else {
        return Err(PoolFault::NoMemory);
    };
    Ok(hand_back(seat, owns, done))
}

// Starts a thread for one more worker, and continues with the rest.
pub(crate) fn crew<
    's,
    E,
    T: Task + Sync + 's,
    H: Hall + Send + Sync + 's,
    R: Threads + Wait + Clock + Sync,
>(
    scope: &'s Scope<'s, E>,
    rt: &'s R,
    alloc: Global,
    desk: &'s Desk,
    task: &'s T,
    seat: Seat,
    owns: Vec<T::Own>,
    list: Vec<T::Done>,
    workers: u64,
) -> Result<Worked<T, H>, PoolFault>
    requires list { list.items ≡ [] }
    requires jobs { desk.now.n ≡ T.count task.now }
    requires seat { (desk.now ≡ H.desk) × (seat.desk ≡ desk.now) × (seat.got ≡ []) × (seat.ended ≡ 0) × (seat.weight ≡ workers)
        × (1 ≤ workers) }
    requires owns { vec_len owns ≡ workers }
    ensures { IfOk result (λ w. (w.seat.weight ≡ workers) × (vec_len w.owns ≡ workers)) }
{
    let mut owns = owns;
    let Some(own) = owns.pop() else {
        return Err(PoolFault::NoMemory);
    };
    if workers == 1 {
        return work::<T, H, R>(rt, alloc, desk, task, seat, own, list);
    }
    let mut seat = seat;
    let theirs = desk.split(&mut seat);
    let Ok(child) = start::<E, T, H, R>(scope, rt, alloc, desk, task, theirs, own, Vec::new(alloc))
    else {
        return Err(PoolFault::NoThread);
    };
    let own = crew::<E, T, H, R>(scope, rt, alloc, desk, task, seat, owns, list, workers - 1)?;
    let Single { worked, .. } = child.join(rt)?;
    joined(desk, own, worked)
}

fn start<'s, E, T: Task + Sync + 's, H: Hall + Send + Sync + 's, R: Threads + Wait + Clock + Sync>(
    scope: &'s Scope<'s, E>,
    rt: &'s R,
    alloc: Global,
    desk: &'s Desk,
    task: &'s T,
    seat: Seat,
    own: T::Own,
    list: Vec<T::Done>,
) -> Result<JoinHandle<Result<Single<T, H>, PoolFault>>, AllocError>
    requires list { list.items ≡ [] }
    requires jobs { desk.now.n ≡ T.count task.now }
    requires seat { (desk.now ≡ H.desk) × (seat.desk ≡ desk.now) × (seat.got ≡ []) × (seat.ended ≡ 0) × (seat.weight ≡ 1) }
{
    let child = scope.spawn(
        move || -> Result<Single<T, H>, PoolFault>
            requires list { list.items ≡ [] }
            requires jobs { desk.now.n ≡ T.count task.now }
            requires seat { (desk.now ≡ H.desk) × (seat.desk ≡ desk.now) × (seat.got ≡ []) × (seat.ended ≡ 0) × (seat.weight ≡ 1) }
        { work_alone::<T, H, R>(rt, alloc, desk, task, seat, own, list) },
    )?;
    Ok(child)
}
