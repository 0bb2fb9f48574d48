//! Jobs by number, done by one worker up to 64.
ghost use Rattle.std.specs.Prelude.{◌≡◌, IfOk, vec_len};

use job_pool::{PoolFault, Ran, Task, run_tasks};
use std::alloc::{AllocError, Global};
use std::sync::Wait;
use std::test::Fail;
use std::thread::Threads;
use std::time::Clock;

/// This many numbers to be squared.
#[derive(Drop)]
struct Squares {
    count: u64,
}

/// A number, and its square.
#[derive(Drop)]
struct Square {
    number: u64,
    value: u64,
}

impl Task for Squares {
    // how many a worker did
    type Own = u64;

    type Done = Square;

    ghost count = { λ t. t.count };

    ghost number_of = { λ d. d.number };

    fn run<R: Wait + Clock>(
        &self,
        _rt: &R,
        own: &mut u64,
        number: u64,
    ) -> Result<Square, AllocError> {
        *own = own.wrapping_add(1);
        Ok(Square {
            number,
            value: number.wrapping_mul(number),
        })
    }

    fn number(done: &Square) -> u64 {
        done.number
    }
}

fn zeros(alloc: Global, count: usize) -> Result<Vec<u64>, Fail>
    ensures { IfOk result (λ v. vec_len v ≡ count) }
{
    let mut owns = Vec::new(alloc);
    owns.resize(count, 0)?;
    Ok(owns)
}

/// Each number is squared once, in order, and the workers did as many as there are.
fn expect_squares<R: Threads + Wait + Clock + Sync>(
    rt: &R,
    alloc: Global,
    count: u64,
    workers: u64,
) -> Result<(), Fail> {
    if count > 1000 || workers == 0 || workers > 64 {
        return Err("too many".into());
    }
    let owns = zeros(alloc, workers as usize)?;
    let Ok(ran) = run_tasks(rt, alloc, &Squares { count }, count, owns, workers) else {
        return Err("refused".into());
    };
    let Ran { seat, owns, done } = ran;
    if seat.weight() != workers || done.len() as u64 != count {
        return Err("another seat, or another number of answers".into());
    }
    let mut wanted = 0u64;
    for one in done.as_slice() {
        if (one.number, one.value) != (wanted, wanted.wrapping_mul(wanted)) {
            return Err("another answer".into());
        }
        wanted = wanted.wrapping_add(1);
    }
    let mut total = 0u64;
    for own in owns.as_slice() {
        total = total.wrapping_add(*own);
    }
    if total == count {
        Ok(())
    } else {
        Err("another number of jobs done".into())
    }
}

#[test]
fn each_job_once_and_in_order(rt: HostRuntime) -> Result<(), Fail> {
    for count in [0, 1, 9, 1000] {
        for workers in [1, 2, 7, 64] {
            expect_squares(&rt, rt.alloc(), count, workers)?;
        }
    }
    Ok(())
}

/// Five jobs, of which one has no memory.
#[derive(Drop)]
struct Refused;

impl Task for Refused {
    type Own = u64;

    type Done = Square;

    ghost count = { λ t. 5 };

    ghost number_of = { λ d. d.number };

    fn run<R: Wait + Clock>(
        &self,
        _rt: &R,
        _own: &mut u64,
        number: u64,
    ) -> Result<Square, AllocError> {
        if number == 3 {
            return Err(AllocError);
        }
        Ok(Square { number, value: 0 })
    }

    fn number(done: &Square) -> u64 {
        done.number
    }
}

#[test]
fn a_job_that_has_no_memory(rt: HostRuntime) -> Result<(), Fail> {
    let owns = zeros(rt.alloc(), 2)?;
    let ran = run_tasks(&rt, rt.alloc(), &Refused, 5, owns, 2);
    assert!(rt; matches!(ran, Err(PoolFault::NoMemory)));
    Ok(())
}
