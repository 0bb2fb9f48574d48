//! Whether all is done, over plain lists.
ghost use Rattle.std.specs.Prelude.{◌≡◌, ◌↔◌, ◌<◌, ◌∷◌, ◌||◌, ℕ, IsTrue, List, Option, length, min};
ghost use Rattle.claim_desk.specs.Seats.{EachOnce, times};
ghost use Rattle.work_core.specs.Complete.{AreOnce, Complete, below_from, job_places, jobs_in, times_place};
ghost use Rattle.work_core.specs.Core.{was_recorded};
ghost use Rattle.work_core.specs.Once.{each_recorded, none_beyond, none_other, once_recorded};
ghost use Rattle.hub_kinds.specs.declared.place.Place.{Place};

use crate::rules::{has_recorded, is_same_place};
use crate::state::Finished;
use hub_kinds::Place;

fn times_finished(finished: &[Finished], job: usize) -> usize
    ensures { result ≡ times job (jobs_in finished.now) }
{
    let mut count = 0;
    for other in finished {
        if job == other.job {
            count += 1;
        }
    }
    count
}

fn times_recorded(recorded: &[Place], place: Place) -> usize
    ensures { result ≡ times_place place recorded.now }
{
    let mut count = 0;
    for other in recorded {
        if is_same_place(place, *other) {
            count += 1;
        }
    }
    count
}

fn is_each_once(finished: &[Finished], count: usize) -> bool
    ensures { IsTrue result ↔ ((j : ℕ) → j < count → times j (jobs_in finished.now) ≡ 1) }
{
    for job in 0..count {
        if times_finished(finished, job) != 1 {
            return false;
        }
    }
    true
}

fn is_none_beyond(finished: &[Finished], count: usize) -> bool
    ensures { result ≡ none_beyond count finished.now }
{
    for other in finished {
        if count <= other.job {
            return false;
        }
    }
    true
}

fn is_place_of_job(jobs: &[Option<Place>], place: Place) -> bool
    ensures { result ≡ was_recorded (job_places jobs.now) place }
{
    for other in jobs {
        if is_that_place_of(*other, place) {
            return true;
        }
    }
    false
}

fn is_that_place_of(other: Option<Place>, place: Place) -> bool
    ensures { (more : List (Option Place)) → was_recorded (job_places (other ∷ more)) place
        ≡ (result || was_recorded (job_places more) place) }
{
    match other {
        None => false,
        Some(other) => is_same_place(place, other),
    }
}

fn is_once_recorded(recorded: &[Place], place: Option<Place>) -> bool
    ensures { result ≡ once_recorded recorded.now place }
{
    match place {
        None => true,
        Some(place) => times_recorded(recorded, place) == 1,
    }
}

fn is_each_recorded(jobs: &[Option<Place>], recorded: &[Place]) -> bool
    ensures { result ≡ each_recorded recorded.now jobs.now }
{
    for place in jobs {
        if !is_once_recorded(recorded, *place) {
            return false;
        }
    }
    true
}

fn is_no_other_recorded(jobs: &[Option<Place>], recorded: &[Place]) -> bool
    ensures { result ≡ none_other jobs.now recorded.now }
{
    for place in recorded {
        if !is_place_of_job(jobs, *place) {
            return false;
        }
    }
    true
}

fn is_finished_once(finished: &[Finished], count: usize) -> bool
    ensures { IsTrue result ↔ EachOnce count (jobs_in finished.now) }
{
    if !is_each_once(finished, count) {
        return false;
    }
    is_none_beyond(finished, count)
}

fn is_recorded_once(jobs: &[Option<Place>], recorded: &[Place]) -> bool
    ensures { IsTrue result ↔ AreOnce (job_places jobs.now) recorded.now }
{
    if !is_each_recorded(jobs, recorded) {
        return false;
    }
    is_no_other_recorded(jobs, recorded)
}

/// Whether each job is claimed once and finished once, and each place of a job recorded once, and nothing else.
pub(crate) fn is_all_done(
    jobs: &[Option<Place>],
    next: u128,
    recorded: &[Place],
    finished: &[Finished],
) -> bool
    ensures { IsTrue result ↔ Complete jobs.now (below_from 0 (min next (length jobs.now))) recorded.now (jobs_in finished.now) }
{
    if next < jobs.len() as u128 {
        return false;
    }
    if !is_finished_once(finished, jobs.len()) {
        return false;
    }
    is_recorded_once(jobs, recorded)
}
