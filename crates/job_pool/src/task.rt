ghost use Rattle.std.specs.Prelude.{◌≡◌, ℕ, ◌<◌, IfOk};

use std::alloc::AllocError;
use std::sync::Wait;
use std::time::Clock;

/// Why a pool gives nothing.
#[derive(Debug, Drop)]
pub enum PoolFault {
    /// Memory was asked for and refused.
    NoMemory,
    /// A thread was asked for and refused.
    NoThread,
}

impl PoolFault {
    ghost use Rattle.job_pool.specs.Refusals.{pool_fault_number};

    /// The number of the refusal.
    pub fn number(&self) -> u32
        ensures { result ≡ pool_fault_number self.now }
    {
        match self {
            PoolFault::NoMemory => 1,
            PoolFault::NoThread => 2,
        }
    }
}

/// Jobs by number, from 0 on. What an answer is, it says by its own type.
pub trait Task {
    /// What a worker has of its own, as its share of a count.
    type Own: Send + Drop;

    /// An answer.
    type Done: Send + Drop;

    // how many jobs there are, and the number of the job that an answer is to
    ghost count: { Self → ℕ };

    ghost number_of: { Self.Done → ℕ };

    /// Does the job of a number. The only error is out of memory.
    fn run<R: Wait + Clock>(
        &self,
        rt: &R,
        own: &mut Self::Own,
        number: u64,
    ) -> Result<Self::Done, AllocError>
        requires { number < count self.now }
        ensures { IfOk result (λ d. number_of d ≡ number) };

    /// The number of the job that an answer is to.
    fn number(done: &Self::Done) -> u64
        ensures { result ≡ number_of done.now };
}
