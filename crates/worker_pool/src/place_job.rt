ghost use Rattle.std.specs.Prelude.{◌≡◌, ℕ, IfOk};
ghost use Rattle.worker_pool.specs.Jobs.{JobValue};

use crate::done::run_check;
use crate::job::CheckJob;
use hub_kinds::{NoMemory, Place};
use number_register::Recorded;
use set_check::Finding;
use std::alloc::Global;

// A job at a place as its workers know it. They share it by this alone, however large the guide that it is checked by.
pub(crate) trait PlaceJob {
    // an answer
    type Done: Send + Drop;

    // what a job asks, and when it can be done
    ghost asks: { Self → JobValue };

    ghost is_ready: { Self → Type 0 };

    // what an answer was asked, and the number of its job
    ghost answers: { Self.Done → JobValue };

    ghost number_of: { Self.Done → ℕ };

    // where it is
    fn place(&self) -> Place
        ensures { result ≡ (asks self.now).place };

    // does the job, whose place was recorded
    fn check(&self, alloc: Global, number: u64, recorded: Recorded) -> Result<Self::Done, NoMemory>
        requires ready { is_ready self.now }
        requires place { recorded.place ≡ (asks self.now).place }
        ensures { IfOk result (λ d. (answers d ≡ asks self.now) × (number_of d ≡ number)) };

    // the number of an answer's job
    fn number(done: &Self::Done) -> u64
        ensures { result ≡ number_of done.now };
}

impl<'f, 'g: 'a, 'a> PlaceJob for CheckJob<'f, 'g, 'a> {
    ghost use Rattle.worker_pool.specs.Jobs.{job_of, job_value};
    ghost use Rattle.worker_pool.specs.Spans.{IsJobSpan};

    type Done = Finding<'a>;

    ghost asks = { job_value };

    ghost is_ready = { IsJobSpan };

    ghost answers = { job_of };

    ghost number_of = { λ d. d.number };

    fn place(&self) -> Place {
        self.place
    }

    fn check(
        &self,
        alloc: Global,
        number: u64,
        recorded: Recorded,
    ) -> Result<Finding<'a>, NoMemory> {
        run_check(alloc, self, number, recorded)
    }

    fn number(done: &Finding<'a>) -> u64 {
        done.number
    }
}
