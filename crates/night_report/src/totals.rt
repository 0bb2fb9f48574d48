/// What a night's report counts.
#[derive(Debug, Drop)]
pub struct Totals {
    /// Interchanges.
    pub interchanges: u128,
    /// Interchanges that are refused.
    pub refused: u128,
    /// Groups other than FA of interchanges that aren't refused.
    pub groups: u128,
    /// The sets of these groups.
    pub sets: u128,
    /// The sum of their accepted sets (AK904).
    pub accepted: u128,
    /// Sets that are held, once for each receiver.
    pub held: u128,
}

impl Totals {
    ghost use Rattle.std.specs.Prelude.{◌≡◌};
    ghost use Rattle.night_report.specs.Adding as adding;
    ghost use Rattle.night_report.specs.Room.{FitsWith};

    /// The totals of nothing.
    pub(crate) fn none() -> Totals
        ensures { result ≡ adding.none }
    {
        Totals {
            interchanges: 0,
            refused: 0,
            groups: 0,
            sets: 0,
            accepted: 0,
            held: 0,
        }
    }

    /// The totals of an interchange that is refused.
    pub(crate) fn of_refused() -> Totals
        ensures { result ≡ adding.refused_one }
    {
        Totals {
            interchanges: 1,
            refused: 1,
            groups: 0,
            sets: 0,
            accepted: 0,
            held: 0,
        }
    }

    /// The totals of an interchange that isn't refused, before its groups.
    pub(crate) fn of_accepted() -> Totals
        ensures { result ≡ adding.accepted_one }
    {
        Totals {
            interchanges: 1,
            refused: 0,
            groups: 0,
            sets: 0,
            accepted: 0,
            held: 0,
        }
    }

    /// What these and others count.
    pub(crate) fn with(&self, more: &Totals) -> Totals
        requires { FitsWith self.now more.now }
        ensures { result ≡ adding.together self.now more.now }
    {
        Totals {
            interchanges: self.interchanges + more.interchanges,
            refused: self.refused + more.refused,
            groups: self.groups + more.groups,
            sets: self.sets + more.sets,
            accepted: self.accepted + more.accepted,
            held: self.held + more.held,
        }
    }
}
