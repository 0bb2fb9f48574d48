ghost use Rattle.std.specs.Prelude.{◌≤◌, ◌<◌, OnOk, OnErr};

use job_pool::PoolFault;

/// How many jobs a pool takes at most. No memory holds more.
const MOST_JOBS: usize = 4611686018427387904;

/// Refuses more jobs than a pool takes.
pub(crate) fn are_few(jobs: usize) -> Result<(), PoolFault>
    ensures ok { OnOk result (jobs ≤ 4611686018427387904) }
    ensures err { OnErr result (4611686018427387904 < jobs) }
{
    if jobs <= MOST_JOBS {
        Ok(())
    } else {
        Err(PoolFault::NoMemory)
    }
}
