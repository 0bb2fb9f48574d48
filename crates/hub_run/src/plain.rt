ghost use Rattle.std.specs.Prelude.{◌↔◌, ◌<◌, ◌≤◌, length, IfOk, IsErrOf};
ghost use Rattle.moment.specs.Moment.{IsMoment};
ghost use Rattle.partner_setup.specs.Sound.{IsSoundSetup};
ghost use Rattle.night_batches.specs.Night.{IsNight};
ghost use Rattle.night_definition.specs.ReadBack as defined;
ghost use Rattle.night_equal_text.specs.LookedUp.{seen_setup};
ghost use Rattle.night_equal_read.specs.Read.{seen_night};

use crate::run_fault::RunFault;
use crate::writing::write_night;
use env_index::index_plain;
use hub_kinds::{LONGEST_TEXT, NoMemory, within_limit};
use moment::At;
use night_batches::Night;
use night_equal_read::whole_nights_are_one;
use partner_setup::Setup;
use set_answers::settled_faults;
use std::alloc::Global;

/// The night of a text that is read front to back on one thread, by a setup and at a moment. A text of more than `LONGEST_TEXT`
/// bytes is refused; the only other error is out of memory. The bytes of the acknowledgments say of each set that it is accepted
/// (IK501 is A) exactly where it meets its guide, and a partner that reads its own finds just that of its sets, and one TA1 for each of
/// its interchanges that is answered. In its mailbox it finds just the sets that are delivered to it, as their senders wrote them.
/// X12.5, interchange and interchange acknowledgment; X12.6, functional group and transaction set; 999 guide (005010X231).
pub fn run_plain(alloc: Global, text: &[u8], setup: &Setup, at: &At) -> Result<Night, RunFault>
    ensures too_long { IsErrOf result RunFault.InputTooLong ↔ (LONGEST_TEXT < length text.now) }
    ensures definition { IfOk result (λ night. defined.IsNight text.now (seen_setup setup.now) at.now (seen_night night)) }
{
    if !within_limit(text.len() as u64) {
        return Err(RunFault::InputTooLong);
    }
    are_sound(setup, at);
    whole_nights_are_one();
    let night = read_night(alloc, text, setup, at)?;
    Ok(night)
}

/// Every setup is sound, and every moment is one. It does nothing: its contract says so.
pub(crate) fn are_sound(setup: &Setup, at: &At)
    ensures setup { IsSoundSetup setup.now }
    ensures moment { IsMoment at.now }
{
    let _hub = setup.hub();
    let _partners = setup.partners();
    let _routes = setup.routes();
    let _digits = at.digits();
}

/// The night of a text that isn't too long.
fn read_night<'a>(
    alloc: Global,
    text: &'a [u8],
    setup: &'a Setup,
    at: &At,
) -> Result<Night, NoMemory>
    requires { length text.now ≤ LONGEST_TEXT }
    ensures { IfOk result (IsNight text.now setup.now at.now) }
{
    let mut index = index_plain(alloc, text)?;
    let faults = settled_faults(alloc, setup, &index)?;
    index.settle(faults.as_slice());
    write_night(alloc, setup, at, &index)
}
