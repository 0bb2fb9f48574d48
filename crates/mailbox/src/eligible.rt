ghost use Rattle.std.specs.Prelude.{◌≡◌};
ghost use Rattle.mailbox.specs.Deliveries.{is_not_rejected, is_deliverable};

use answered_sets::{PlacedSet, is_fa, is_refused};
use hub_kinds::Verdict;

/// A or E.
pub(crate) fn is_not_rejected(verdict: Verdict) -> bool
    ensures { result ≡ is_not_rejected verdict }
{
    match verdict {
        Verdict::Accepted => true,
        Verdict::AcceptedWithErrors => true,
        Verdict::Rejected => false,
    }
}

/// Whether a set may be delivered at all: its verdict is A or E (999 guide, IK501), its group has no code and isn't one of
/// acknowledgments, and its interchange isn't refused.
pub fn is_deliverable(placed: &PlacedSet<'_, '_, '_>) -> bool
    ensures { result ≡ is_deliverable placed.now }
{
    is_not_rejected(placed.verdict())
        && placed.is_clear()
        && !is_fa(&placed.group())
        && !is_refused(placed.interchange())
}
