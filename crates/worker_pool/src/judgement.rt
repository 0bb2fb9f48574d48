ghost use Rattle.std.specs.Prelude.{◌≡◌, ◌-◌, slice_get, Some};
ghost use Rattle.env_index.specs.Unjudged.{faults_of};

use crate::phase::Job;
use env_index::{Index, judge};
use hub_kinds::{InterchangeFault, NoMemory};
use std::alloc::Global;
use std::marker::Model;

/// The least of the faults 1 to 7 of an interchange of an index is asked for; interchanges count from 1 (X12.5, interchange).
#[derive(Drop)]
pub struct JudgeJob<'i, 'a> {
    pub index: &'i Index<'a>,
    pub number: usize,
}

/// What such a job asks.
#[derive(Drop)]
pub struct JudgeAsked<'a> {
    pub index: Index<'a>,
    pub number: usize,
}

/// The least fault of an interchange. Only a job makes it.
#[derive(Drop)]
pub struct JudgeDone<'i, 'a> {
    job: u64,
    index: &'i Index<'a>,
    number: usize,
    fault: Option<InterchangeFault>,
}

impl<'i, 'a> Model for JudgeDone<'i, 'a> {
    ghost use Rattle.std.specs.Prelude.{◌≡◌, ◌-◌, slice_get, Some};
    ghost use Rattle.env_index.specs.Unjudged.{faults_of};
    ghost use Rattle.worker_pool.specs.Asked.{JudgeAnswer};

    ghost Value = { JudgeAnswer };

    ghost view = { λ d. record { job = d.job; index = d.index.now; number = d.number } };

    ghost invariant = { λ d. slice_get (faults_of d.index.now.entries) (d.number - 1) ≡ Some d.fault };
}

impl<'i, 'a> JudgeDone<'i, 'a> {
    /// The fault; none where the interchange has none of these.
    pub fn fault(&self) -> Option<InterchangeFault>
        ensures { slice_get (faults_of self.now.index.entries) (self.now.number - 1) ≡ Some result }
    {
        self.fault
    }
}

impl<'i, 'a> Job for JudgeJob<'i, 'a> {
    ghost use Rattle.worker_pool.specs.Asked.{IsJudgeJob, judge_asked, judge_by};

    type Asked = JudgeAsked<'a>;

    type Done = JudgeDone<'i, 'a>;

    ghost value = { judge_asked };

    ghost is_ready = { IsJudgeJob };

    ghost job_of = { judge_by };

    ghost number_of = { λ d. d.job };

    fn run(&self, _alloc: Global, number: u64) -> Result<JudgeDone<'i, 'a>, NoMemory> {
        let fault = judge(self.index.text(), self.index, self.number);
        Ok(JudgeDone {
            job: number,
            index: self.index,
            number: self.number,
            fault,
        })
    }

    fn number(done: &JudgeDone<'i, 'a>) -> u64 {
        done.job
    }
}
