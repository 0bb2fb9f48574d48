ghost use Rattle.std.specs.Prelude.{◌≡◌};
ghost use Rattle.mailbox.specs.Deliveries.{outcome_at};

use crate::blocking::is_blocked;
use crate::outcome::Outcome;
use answered_sets::PlacedSet;
use partner_setup::Setup;

/// The outcome of a set that may be delivered, for the receiver at this place of the setup.
pub fn outcome_at(setup: &Setup, placed: &PlacedSet<'_, '_, '_>, to: usize) -> Outcome
    ensures { result ≡ outcome_at setup.now placed.now to }
{
    match setup.partner_at(to) {
        None => Outcome::HeldForRoute,
        Some(partner) => {
            if is_blocked(&partner.delims, placed) {
                Outcome::HeldForDelimiter(to)
            } else {
                Outcome::DeliveredTo(to)
            }
        }
    }
}
