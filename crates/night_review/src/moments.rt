ghost use Rattle.std.specs.Prelude.{IfErr};
ghost use Rattle.night_review.specs.Faults.{IsOfClock};

use crate::fault::ReviewFault;
use jiff::{Error, Timestamp};
use std::rt::Clock;
use std::time::{Duration, SystemTime};

/// How far ahead of the clock a night's moment may be, in seconds: a night may run a day before its moment, and UTC may be most of a day
/// before a local clock.
const AHEAD: u64 = 172_800;

/// The moment that is `ahead` seconds after the clock's, as CCYYMMDDHHMM in UTC.
fn moment_after<R: Clock + AllocGlobal>(rt: &R, ahead: u64) -> Result<String, ReviewFault>
    ensures { IfErr result IsOfClock }
{
    let Ok(now) = SystemTime::now(rt) else {
        return Err(ReviewFault::Clock);
    };
    let Some(moment) = now.checked_add(Duration::from_secs(ahead)) else {
        return Err(ReviewFault::Clock);
    };
    let Ok(moment) = Timestamp::try_from(moment) else {
        return Err(ReviewFault::Clock);
    };
    match moment.strftime(rt.alloc(), "%Y%m%d%H%M") {
        Ok(text) => Ok(text),
        Err(Error::OutOfMemory) => Err(ReviewFault::Memory),
        Err(_) => Err(ReviewFault::Clock),
    }
}

/// The moment after which no night's may be, as CCYYMMDDHHMM in UTC: two days after the clock's. Errors: the clock can't be read; or out of
/// memory.
pub fn limit<R: Clock + AllocGlobal>(rt: &R) -> Result<String, ReviewFault>
    ensures { IfErr result IsOfClock }
{
    moment_after(rt, AHEAD)
}

/// What the clock says, as CCYYMMDDHHMM in UTC. Errors: the clock can't be read; or out of memory.
pub fn moment_now<R: Clock + AllocGlobal>(rt: &R) -> Result<String, ReviewFault>
    ensures { IfErr result IsOfClock }
{
    moment_after(rt, 0)
}
