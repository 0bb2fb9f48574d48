//! What is asked and done where an event is taken.
ghost use Rattle.std.specs.Prelude.{◌≡◌, slice_set};
ghost use Rattle.work_core.specs.Core.{claimed_at, is_job, is_place, may_finish, place_of, same_place, was_recorded, worker_at};

use crate::state::Worker;
use hub_kinds::Place;

pub(crate) fn is_same_place(place: Place, other: Place) -> bool
    ensures { result ≡ same_place place other }
{
    place.isa == other.isa && place.gs == other.gs && place.st == other.st
}

// A worker after a claim: with the job of that number, or ended where none has it.
pub(crate) fn claimed_by(next: u128, count: usize) -> Worker
    ensures { result ≡ claimed_at next count }
{
    if next < count as u128 {
        Worker {
            holds: Some(next as usize),
            ended: false,
        }
    } else {
        Worker {
            holds: None,
            ended: true,
        }
    }
}

// The place of a job, where it has one.
pub(crate) fn place_of_job(jobs: &[Option<Place>], held: Option<usize>) -> Option<Place>
    ensures { result ≡ place_of jobs.now held }
{
    match jobs.get(held?) {
        None => None,
        Some(place) => *place,
    }
}

pub(crate) fn has_recorded(recorded: &[Place], place: Place) -> bool
    ensures { result ≡ was_recorded recorded.now place }
{
    for other in recorded {
        if is_same_place(place, *other) {
            return true;
        }
    }
    false
}

pub(crate) fn is_that_place(held: Option<Place>, place: Place) -> bool
    ensures { result ≡ is_place held place }
{
    match held {
        None => false,
        Some(other) => is_same_place(other, place),
    }
}

pub(crate) fn is_that_job(held: Option<usize>, job: usize) -> bool
    ensures { result ≡ is_job held job }
{
    match held {
        None => false,
        Some(other) => other == job,
    }
}

pub(crate) fn can_finish(recorded: &[Place], place: Option<Place>) -> bool
    ensures { result ≡ may_finish recorded.now place }
{
    match place {
        None => true,
        Some(place) => has_recorded(recorded, place),
    }
}

pub(crate) fn worker_of(workers: &[Worker], number: usize) -> Worker
    ensures { result ≡ worker_at workers.now number }
{
    match workers.get(number) {
        None => Worker {
            holds: None,
            ended: true,
        },
        Some(worker) => *worker,
    }
}

// A worker that holds a job, or hasn't ended, is there.
pub(crate) fn set_worker(workers: &mut [Worker], number: usize, worker: Worker)
    ensures { workers.new ≡ slice_set workers.old number worker }
{
    if number < workers.len() {
        workers[number] = worker;
    }
}
