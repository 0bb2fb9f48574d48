//! The desk: what each seat gets, by one thread and by two.
ghost use Rattle.std.specs.Prelude.{◌≡◌, IfOk};

use claim_desk::{Desk, JobNo, Seat};
use std::alloc::{AllocError, Global};
use std::test::Fail;
use std::thread;

/// A seat that was answered that no job is left, and what it got.
#[derive(Drop)]
struct Claimed {
    seat: Seat,
    got: Vec<JobNo>,
}

/// What a seat gets until no job is left.
fn claim_all(alloc: Global, desk: &Desk, seat: Seat) -> Result<Claimed, AllocError>
    requires { seat.desk ≡ desk.now }
    ensures { IfOk result (λ c. c.seat.desk ≡ desk.now) }
{
    let mut seat = seat;
    let mut got = Vec::new(alloc);
    for _ in 0..=desk.count() {
        match desk.claim(&mut seat) {
            Some(job) => got.push(job)?,
            None => break,
        }
    }
    Ok(Claimed { seat, got })
}

#[test]
fn one_seat_gets_all(rt: HostRuntime) -> Result<(), Fail> {
    let (desk, mut seat) = Desk::new(rt.alloc(), 2, 1)?;
    assert_eq!(rt; (desk.count(), seat.weight()), (2, 1));
    assert_eq!(rt; desk.claim(&mut seat), Some(0));
    assert_eq!(rt; desk.claim(&mut seat), Some(1));
    assert_eq!(rt; desk.claim(&mut seat), None);
    assert_eq!(rt; desk.claim(&mut seat), None);
    Ok(())
}

#[test]
fn a_desk_without_jobs(rt: HostRuntime) -> Result<(), Fail> {
    let (desk, mut seat) = Desk::new(rt.alloc(), 0, 64)?;
    assert_eq!(rt; seat.weight(), 64);
    assert_eq!(rt; desk.claim(&mut seat), None);
    Ok(())
}

/// How many of the jobs of two lists are this one.
fn times(job: JobNo, got: &[JobNo], other: &[JobNo]) -> usize {
    got.iter().chain(other).filter(|it| **it == job).count()
}

/// Two threads that claim until no job is left have each job once between them.
#[test]
fn two_threads_have_each_job_once(rt: HostRuntime) -> Result<(), Fail> {
    let alloc = rt.alloc();
    let (desk, mut seat) = Desk::new(alloc, 2, 2)?;
    let other = desk.split(&mut seat);
    assert_eq!(rt; (seat.weight(), other.weight()), (1, 1));
    let (own, theirs) = thread::join(
        &rt,
        || -> Result<Claimed, AllocError>
            requires { seat.desk ≡ desk }
            ensures { IfOk result (λ c. c.seat.desk ≡ desk) }
        { claim_all(alloc, &desk, seat) },
        || -> Result<Claimed, AllocError>
            requires { other.desk ≡ desk }
            ensures { IfOk result (λ c. c.seat.desk ≡ desk) }
        { claim_all(alloc, &desk, other) },
    );
    let Claimed { mut seat, got } = own?;
    let Claimed {
        seat: other,
        got: more,
    } = theirs?;
    desk.join(&mut seat, other);
    assert_eq!(rt; seat.weight(), 2);
    assert_eq!(rt; got.len().saturating_add(more.len()), 2);
    for job in 0..2 {
        assert_eq!(rt; times(job, got.as_slice(), more.as_slice()), 1);
    }
    Ok(())
}
