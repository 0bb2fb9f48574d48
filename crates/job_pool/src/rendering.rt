ghost use Rattle.std.specs.Prelude.{◌*◌, ◌≤◌};

/// The thread that asks.
#[derive(Drop)]
pub struct OneThread;

/// As many threads as there are workers, at the most.
#[derive(Drop)]
pub struct ManyThreads<'r, R> {
    /// What starts threads.
    pub rt: &'r R,
    /// How many workers there are.
    pub workers: u64,
}

impl<'r, R> ManyThreads<'r, R> {
    ghost use Rattle.std.specs.Prelude.{◌*◌, ◌≤◌, max};

    /// How many of that many items a thread gets, where `fewest` items are worth a thread: so many that as many shares as there are workers
    /// have them all, and no more threads are started.
    pub fn share_of(&self, items: usize, fewest: usize) -> usize
        ensures fewest { fewest ≤ result }
        ensures workers { items ≤ result * max self.now.workers 1 }
    {
        share_of(items, self.workers.max(1) as usize).max(fewest)
    }
}

/// A share of which as many as there are workers have all items.
fn share_of(items: usize, workers: usize) -> usize
    requires { 1 ≤ workers }
    ensures { items ≤ result * workers }
{
    items.div_ceil(workers)
}
