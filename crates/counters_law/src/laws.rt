ghost use Rattle.counters_law.specs.GoingOn.{CountersGoOn};

/// The counters that a night leaves are read by the next night, and taken by the same setup.
pub fn counters_go_on()
    ensures { CountersGoOn }
{}
