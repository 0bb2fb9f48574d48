ghost use Rattle.std.specs.Prelude.{◌≡◌, Contains};
ghost use Rattle.env_index.specs.Words.{places_of};
ghost use Rattle.set_findings.specs.Flags.{IsTold, IsToldBy, has_fault};

use hub_kinds::{InterchangeFault, Place};
use number_register::FullRegister;

/// Whether an interchange has a fault, counted from 1.
fn has_fault(faults: &[Option<InterchangeFault>], isa: u32) -> bool
    ensures { result ≡ has_fault faults.now isa }
{
    match faults.get(isa.saturating_sub(1) as usize) {
        None => false,
        Some(fault) => fault.is_some(),
    }
}

/// Whether the first use of a place's number is an earlier place.
fn is_told(full: &FullRegister<'_, '_>, place: Place) -> bool
    requires { Contains (places_of full.now.index) place }
    ensures { IsTold full.now.index place result }
{
    full.earlier_of(place).is_some()
}

/// Whether an earlier place of the register's index has the number of `place`: of a group or a set exactly where the first use of its
/// number is an earlier place (X12.6, group and set control numbers), of an interchange where it has a fault of 1 to 9, which can only be
/// 9, since one with another has no place (X12.5, interchange control number).
pub(crate) fn flag_of(
    full: &FullRegister<'_, '_>,
    faults: &[Option<InterchangeFault>],
    place: Place,
) -> bool
    requires { Contains (places_of full.now.index) place }
    ensures { IsToldBy full.now.index faults.now place result }
{
    if place.gs == 0 {
        has_fault(faults, place.isa)
    } else {
        is_told(full, place)
    }
}
