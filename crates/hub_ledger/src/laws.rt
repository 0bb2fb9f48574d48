ghost use Rattle.hub_ledger.specs.Laws.{DeliversNew, DeliversOnce, GoingOnDeliversOnce, NumbersGoOn, ShowsCommitted};

/// Whatever stops the hub and whenever, no set is delivered to a receiver on two nights, but one that the later night was asked for
/// again.
pub fn delivers_once()
    ensures { DeliversOnce }
{}

/// Nights of which none was asked for a set again deliver none to a receiver twice.
pub fn delivers_new()
    ensures { DeliversNew }
{}

/// What may be sent is written down.
pub fn shows_committed()
    ensures { ShowsCommitted }
{}

/// What an address is sent is numbered without a gap over all nights, whatever its partner is called and whatever stops the hub.
pub fn numbers_go_on()
    ensures { NumbersGoOn }
{}

/// Nights that continue deliver no set to a receiver twice, but one that was asked for again, and number what an address is sent without
/// a gap.
pub fn nights_that_go_on()
    ensures { GoingOnDeliversOnce }
{}
