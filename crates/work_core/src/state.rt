ghost use Rattle.std.specs.Prelude.{◌≡◌, ◌↔◌, IfOk, IsTrue, OnErr};
ghost use Rattle.work_core.specs.Complete.{IsDone};
ghost use Rattle.work_core.specs.Core.{fresh, is_enabled, run, stepped, told};
ghost use Rattle.work_core.specs.declared.event.Event.TheVariants.{Claim, Finish, Record, Refused};

use crate::complete::is_all_done;
use crate::event::{Event, Stepped};
use crate::rules::{
    can_finish, claimed_by, has_recorded, is_that_job, is_that_place, place_of_job, set_worker,
    worker_of,
};
use hub_kinds::{NoMemory, Place};
use std::alloc::Global;
use std::marker::Model;

/// A worker: the job that it holds, by number, and whether it has ended.
#[derive(Clone, Copy, Debug)]
pub struct Worker {
    pub holds: Option<usize>,
    pub ended: bool,
}

/// A job that was finished, by number, and the worker who did it.
#[derive(Clone, Copy, Debug)]
pub struct Finished {
    pub worker: usize,
    pub job: usize,
}

/// Where jobs and workers are. Contracts see the jobs, the count of claims, the workers, the places recorded and the jobs
/// finished.
#[derive(Drop)]
pub struct CoreState {
    jobs: Vec<Option<Place>>,
    // claims so far: jobs, and ends of workers, so they may be more than a usize holds
    next: u128,
    workers: Vec<Worker>,
    recorded: Vec<Place>,
    finished: Vec<Finished>,
}

impl Model for CoreState {
    ghost use Rattle.work_core.specs.Core.{Core};
    ghost use Rattle.work_core.specs.Inside.{core_of, IsCounted};

    ghost Value = { Core };

    ghost view = { core_of };

    ghost invariant = { IsCounted };
}

impl CoreState {
    /// Jobs, each with its place where it has one, and that many workers, who hold nothing. The only error is out of memory.
    pub fn new(
        alloc: Global,
        jobs: Vec<Option<Place>>,
        workers: usize,
    ) -> Result<CoreState, NoMemory>
        ensures { IfOk result (λ s. s ≡ fresh jobs.items workers) }
    {
        let mut idle = Vec::new(alloc);
        idle.resize(
            workers,
            Worker {
                holds: None,
                ended: false,
            },
        )?;
        Ok(CoreState {
            jobs,
            next: 0,
            workers: idle,
            recorded: Vec::new(alloc),
            finished: Vec::new(alloc),
        })
    }

    /// Takes one event, or answers that it wasn't enabled, which changes nothing. The only error is out of memory, which leaves
    /// the state as it was.
    pub fn step(&mut self, event: Event) -> Result<Stepped, NoMemory>
        ensures ok { IfOk result (λ s. (s ≡ told (is_enabled self.old event)) × (self.new ≡ stepped self.old event)) }
        ensures err { OnErr result (self.new ≡ self.old) }
    {
        match event {
            Event::Claim(worker) => Ok(self.claim(worker)),
            Event::Record(worker, place) => self.record(worker, place),
            Event::Finish(worker, job) => self.finish(worker, job),
            Event::Refused(worker) => Ok(self.refuse(worker)),
        }
    }

    fn claim(&mut self, number: usize) -> Stepped
        ensures { (result ≡ told (is_enabled self.old (Claim number))) × (self.new ≡ stepped self.old (Claim number)) }
    {
        let worker = worker_of(self.workers.as_slice(), number);
        if worker.holds.is_some() || worker.ended {
            return Stepped::Idle;
        }
        let turned = claimed_by(self.next, self.jobs.len());
        self.next += 1;
        set_worker(self.workers.as_mut_slice(), number, turned);
        Stepped::Took
    }

    fn record(&mut self, number: usize, place: Place) -> Result<Stepped, NoMemory>
        ensures ok { IfOk result (λ s. (s ≡ told (is_enabled self.old (Record number place)))
            × (self.new ≡ stepped self.old (Record number place))) }
        ensures err { OnErr result (self.new ≡ self.old) }
    {
        let worker = worker_of(self.workers.as_slice(), number);
        let held = place_of_job(self.jobs.as_slice(), worker.holds);
        if !is_that_place(held, place) || has_recorded(self.recorded.as_slice(), place) {
            return Ok(Stepped::Idle);
        }
        self.recorded.push(place)?;
        Ok(Stepped::Took)
    }

    fn finish(&mut self, number: usize, job: usize) -> Result<Stepped, NoMemory>
        ensures ok { IfOk result (λ s. (s ≡ told (is_enabled self.old (Finish number job)))
            × (self.new ≡ stepped self.old (Finish number job))) }
        ensures err { OnErr result (self.new ≡ self.old) }
    {
        let worker = worker_of(self.workers.as_slice(), number);
        let place = place_of_job(self.jobs.as_slice(), Some(job));
        if !is_that_job(worker.holds, job) || !can_finish(self.recorded.as_slice(), place) {
            return Ok(Stepped::Idle);
        }
        self.finished.push(Finished {
            worker: number,
            job,
        })?;
        let turned = Worker {
            holds: None,
            ended: worker.ended,
        };
        set_worker(self.workers.as_mut_slice(), number, turned);
        Ok(Stepped::Took)
    }

    fn refuse(&mut self, number: usize) -> Stepped
        ensures { (result ≡ told (is_enabled self.old (Refused number))) × (self.new ≡ stepped self.old (Refused number)) }
    {
        let worker = worker_of(self.workers.as_slice(), number);
        if worker.holds.is_none() {
            return Stepped::Idle;
        }
        let turned = Worker {
            holds: None,
            ended: true,
        };
        set_worker(self.workers.as_mut_slice(), number, turned);
        Stepped::Took
    }

    /// Whether all is done: each job claimed once and finished once, each place of a job recorded once, and nothing else.
    pub fn is_complete(&self) -> bool
        ensures { IsTrue result ↔ IsDone self.now }
    {
        is_all_done(
            self.jobs.as_slice(),
            self.next,
            self.recorded.as_slice(),
            self.finished.as_slice(),
        )
    }
}

/// Where jobs and workers are after some events, taken in their order. The only error is out of memory.
pub fn run_events(
    alloc: Global,
    jobs: Vec<Option<Place>>,
    workers: usize,
    events: &[Event],
) -> Result<CoreState, NoMemory>
    ensures { IfOk result (λ s. s ≡ run (fresh jobs.items workers) events.now) }
{
    let mut state = CoreState::new(alloc, jobs, workers)?;
    for event in events {
        state.step(*event)?;
    }
    Ok(state)
}
