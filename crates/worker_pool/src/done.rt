ghost use Rattle.std.specs.Prelude.{◌≡◌, option_map, IfOk};
ghost use Rattle.x12_segs.specs.Words.{IsSetSpan};
ghost use Rattle.set_check.specs.Checked.{asked_by};
ghost use Rattle.worker_pool.specs.Jobs.{job_of, job_value, set_asked};
ghost use Rattle.worker_pool.specs.Spans.{IsJobSpan};

use crate::job::{CheckJob, SetJob};
use hub_kinds::NoMemory;
use number_register::Recorded;
use set_check::{CheckedSet, Finding, check_set_fast};
use std::alloc::Global;

fn checked_set<'g: 'a, 'a>(
    alloc: Global,
    set: &SetJob<'_, 'g, 'a>,
) -> Result<CheckedSet<'a>, NoMemory>
    requires { IsSetSpan set.now.text.now set.now.span }
    ensures { IfOk result (λ c. asked_by c ≡ set_asked set.now) }
{
    check_set_fast(alloc, set.text, set.span, set.guide)
}

fn checked_at<'g: 'a, 'a>(
    alloc: Global,
    job: &CheckJob<'_, 'g, 'a>,
) -> Result<Option<CheckedSet<'a>>, NoMemory>
    requires { IsJobSpan job.now }
    ensures { IfOk result (λ c. option_map asked_by c ≡ (job_value job.now).set) }
{
    match &job.set {
        None => Ok(None),
        Some(set) => {
            let checked = checked_set(alloc, set)?;
            Ok(Some(checked))
        }
    }
}

/// Checks the set of `job`, whose place was `recorded`; `number` is the job's. Whether an earlier place has its number isn't asked yet.
/// The only error is out of memory.
pub fn run_check<'g: 'a, 'a>(
    alloc: Global,
    job: &CheckJob<'_, 'g, 'a>,
    number: u64,
    recorded: Recorded,
) -> Result<Finding<'a>, NoMemory>
    requires span { IsJobSpan job.now }
    requires place { recorded.place ≡ job.now.place }
    ensures job { IfOk result (λ f. job_of f ≡ job_value job.now) }
    ensures number { IfOk result (λ f. f.number ≡ number) }
{
    let checked = checked_at(alloc, job)?;
    Ok(Finding {
        number,
        place: recorded.place(),
        checked,
        earlier: false,
    })
}
