ghost use Rattle.std.specs.Prelude.{◌≡◌};
ghost use Rattle.answered_sets.specs.Judged.{is_fa, is_refused};

use crate::judged::JudgedInterchange;
use env_index::GroupEnvelope;

/// Whether a group is one of acknowledgments (X12.6, GS01).
pub fn is_fa(group: &GroupEnvelope<'_, '_>) -> bool
    ensures { result ≡ is_fa group.now }
{
    group.header().element(1) == b"FA".as_slice()
}

/// Whether an interchange is refused: it has a fault.
pub fn is_refused(interchange: &JudgedInterchange<'_, '_>) -> bool
    ensures { result ≡ is_refused interchange.now }
{
    !interchange.fault().is_none()
}
