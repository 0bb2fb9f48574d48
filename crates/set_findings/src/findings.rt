ghost use Rattle.std.specs.Prelude.{◌≡◌, Contains, map};
ghost use Rattle.std.specs.List.{AllZip};
ghost use Rattle.env_index.specs.Words.{places_of};
ghost use Rattle.set_findings.specs.Findings.{IsFindingOf, found_place};

use crate::flags::flag_of;
use hub_kinds::InterchangeFault;
use number_register::FullRegister;
use set_check::Finding;

/// Says in a `finding` whether an earlier place has the number of its place.
fn tell_earlier(
    full: &FullRegister<'_, '_>,
    faults: &[Option<InterchangeFault>],
    finding: &mut Finding<'_>,
)
    requires { Contains (places_of full.now.index) finding.old.place }
    ensures { IsFindingOf full.now.index faults.now finding.old finding.new }
{
    finding.earlier = flag_of(full, faults, finding.place);
}

/// Says in the `findings` at all places of the register's index, in their order, whether an earlier place has the place's number, by
/// the `faults` of the index's interchanges.
pub(crate) fn tell_each(
    full: &FullRegister<'_, '_>,
    faults: &[Option<InterchangeFault>],
    findings: &mut [Finding<'_>],
)
    requires { map found_place findings.old ≡ places_of full.now.index }
    ensures { AllZip (IsFindingOf full.now.index faults.now) findings.old findings.new }
{
    for i in 0..findings.len() {
        tell_earlier(full, faults, &mut findings[i]);
    }
}
