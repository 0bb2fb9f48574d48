use std::sync::Wait;
use std::time::Clock;

/// What a worker passes through before each job and after it, where it may have to wait: so a run can be made to meet
/// itself, or to finish its jobs in another order. What a job answers doesn't depend on it.
pub trait Gate {
    /// Before a job, by its number.
    fn enter<R: Wait + Clock>(&self, rt: &R, job: u64);

    /// After a job, which lends what it answered.
    fn answered<R: Wait + Clock, D>(&self, rt: &R, job: u64, done: &D);
}

/// A gate at which nobody waits.
#[derive(Clone, Copy, Debug)]
pub struct OpenGate;

impl Gate for OpenGate {
    fn enter<R: Wait + Clock>(&self, _rt: &R, _job: u64) {}

    fn answered<R: Wait + Clock, D>(&self, _rt: &R, _job: u64, _done: &D) {}
}
