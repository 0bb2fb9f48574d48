ghost use Rattle.unmet_law.specs.Unmet.{UnmetIsFaulty, UnmetIsMetByNone};

use night_equal_set::values_are_one;

/// A theorem, with nothing to run: each body that such a guide derives has a segment with an element at fault.
pub fn unmet_is_faulty()
    ensures { UnmetIsFaulty }
{
    values_are_one();
}

/// A theorem, with nothing to run: no set meets such a guide.
pub fn unmet_is_met_by_none()
    ensures { UnmetIsMetByNone }
{
    values_are_one();
}
