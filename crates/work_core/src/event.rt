use hub_kinds::Place;

/// What happens to a worker, who is known by number, from 0 on.
#[derive(Clone, Copy, Debug)]
pub enum Event {
    /// It claims the next job.
    Claim(usize),
    /// It records the place of the job that it holds.
    Record(usize, Place),
    /// It finishes the job that it holds, known by number.
    Finish(usize, usize),
    /// It is refused what it needs for the job that it holds, and ends.
    Refused(usize),
}

/// Whether an event was enabled and took place.
#[derive(Clone, Copy, Debug, PartialEq, Eq)]
pub enum Stepped {
    /// It took place.
    Took,
    /// It wasn't enabled, and changed nothing.
    Idle,
}
