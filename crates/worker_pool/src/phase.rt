ghost use Rattle.std.specs.Prelude.{◌≡◌, ℕ, IfOk};

use hub_kinds::NoMemory;
use std::alloc::Global;

/// A job of a list, whose answer says by its type what it is the answer to.
pub trait Job {
    /// What a job asks, as contracts see it.
    type Asked;

    /// An answer.
    type Done: Send + Drop;

    // what a job asks, and when it can be done
    ghost value: { Self → Self.Asked };

    ghost is_ready: { Self → Type 0 };

    // what an answer was asked, and the number of its job
    ghost job_of: { Self.Done → Self.Asked };

    ghost number_of: { Self.Done → ℕ };

    /// Does the job, of a number. The only error is out of memory.
    fn run(&self, alloc: Global, number: u64) -> Result<Self::Done, NoMemory>
        requires { is_ready self.now }
        ensures { IfOk result (λ d. (job_of d ≡ value self.now) × (number_of d ≡ number)) };

    /// The number of an answer's job.
    fn number(done: &Self::Done) -> u64
        ensures { result ≡ number_of done.now };
}

/// Does a job, of a number. The only error is out of memory.
pub fn run_job<J: Job>(alloc: Global, job: &J, number: u64) -> Result<J::Done, NoMemory>
    requires { J.is_ready job.now }
    ensures { IfOk result (λ d. (J.job_of d ≡ J.value job.now) × (J.number_of d ≡ number)) }
{
    job.run(alloc, number)
}
