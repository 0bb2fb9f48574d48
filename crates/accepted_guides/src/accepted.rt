ghost use Rattle.accepted_guides.specs.Accepted.{AreGuidesAccepted};

use partner_setup::Setup;

/// Looks at each guide of `setup`: all are accepted, as no other guide can be made.
pub fn guides_are_accepted(setup: &Setup)
    ensures { AreGuidesAccepted setup.now }
{
    for guide in setup.guides() {
        let _rows = guide.rows();
    }
}
