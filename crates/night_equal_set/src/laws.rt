ghost use Rattle.night_equal_set.specs.RuleFaults.{RuleFaultsAreOne};
ghost use Rattle.night_equal_set.specs.GroupTrailers.{GroupTrailersAreOne};
ghost use Rattle.night_equal_set.specs.Errors.{ErrorsAreOne};
ghost use Rattle.night_equal_set.specs.Strays.{StraysAreOne};
ghost use Rattle.night_equal_set.specs.Order.{OrdersAreOne, FaultsRise, FirstsStand};
ghost use Rattle.night_equal_set.specs.PlacedSegments.{PlacedAreOne};
ghost use Rattle.night_equal_set.specs.Dependencies.{DependencyFaultsAreOne};
ghost use Rattle.night_equal_set.specs.Hl.{HlFaultsAreOne};
ghost use Rattle.night_equal_set.specs.Meeting.{TargetsAreOne, MeetingsAreOne};
ghost use Rattle.night_equal_set.specs.ElementFaults.{ElementFaultsAreOne};
ghost use Rattle.night_equal_set.specs.SetCodes.{VerdictsAreOne, SetCodesAreOne};
ghost use Rattle.night_equal_set.specs.Placings.{PlacingsAreOne};
ghost use Rattle.night_equal_set.specs.Values.{ValuesAreOne};
ghost use Rattle.night_equal_set.specs.Hierarchies.{HierarchiesAreOne};
ghost use Rattle.night_equal_set.specs.Derivations.{DerivationsAreOne};
ghost use Rattle.night_equal_set.specs.GroupVerdicts.{GroupVerdictsAreOne};
ghost use Rattle.night_equal_set.specs.Conditions.{ConditionsAreOne};

/// A theorem, with nothing to run: each segment of a body has one place.
pub fn placings_are_one()
    ensures { PlacingsAreOne }
{}

/// A theorem, with nothing to run: a value has one first fault.
pub fn values_are_one()
    ensures { ValuesAreOne }
{}

/// A theorem, with nothing to run: HL segments are one whole hierarchy.
pub fn hierarchies_are_one()
    ensures { HierarchiesAreOne }
{}

/// A theorem, with nothing to run: a guide derives the same segments.
pub fn derivations_are_one()
    ensures { DerivationsAreOne }
{}

/// A theorem, with nothing to run: a group has one verdict.
pub fn group_verdicts_are_one()
    ensures { GroupVerdictsAreOne }
{}

/// A theorem, with nothing to run: a condition is broken at the same elements.
pub fn conditions_are_one()
    ensures { ConditionsAreOne }
{}

/// A theorem, with nothing to run: a set with these faults and codes has one verdict.
pub fn verdicts_are_one()
    ensures { VerdictsAreOne }
{}

/// A theorem, with nothing to run: a set with these faults has the same codes.
pub fn set_codes_are_one()
    ensures { SetCodesAreOne }
{}

/// A theorem, with nothing to run: a segment's elements have the same faults.
pub fn element_faults_are_one()
    ensures { ElementFaultsAreOne }
{}

/// A theorem, with nothing to run: a dependency's target is kept by the same segments.
pub fn targets_are_one()
    ensures { TargetsAreOne }
{}

/// A theorem, with nothing to run: the same sets meet a guide.
pub fn meetings_are_one()
    ensures { MeetingsAreOne }
{}

/// A theorem, with nothing to run: HL segments have the same faults.
pub fn hl_faults_are_one()
    ensures { HlFaultsAreOne }
{}

/// A theorem, with nothing to run: dependencies have the same faults.
pub fn dependency_faults_are_one()
    ensures { DependencyFaultsAreOne }
{}

/// A theorem, with nothing to run: the same segments have places.
pub fn placed_are_one()
    ensures { PlacedAreOne }
{}

/// A theorem, with nothing to run: faults have one order.
pub fn orders_are_one()
    ensures { OrdersAreOne }
{}

/// A theorem, with nothing to run: the definition's faults rise in it.
pub fn faults_rise()
    ensures { FaultsRise }
{}

/// A theorem, with nothing to run: of the faults with one key the first is kept, and no other.
pub fn firsts_stand()
    ensures { FirstsStand }
{}

/// A theorem, with nothing to run: segments without a place are reported alike.
pub fn strays_are_one()
    ensures { StraysAreOne }
{}

/// A theorem, with nothing to run: a set's segments have the same element faults.
pub fn errors_are_one()
    ensures { ErrorsAreOne }
{}

/// A theorem, with nothing to run: a group's trailer shows the same codes.
pub fn group_trailers_are_one()
    ensures { GroupTrailersAreOne }
{}

/// A theorem, with nothing to run: a set's hierarchy and dependencies have the same faults.
pub fn rule_faults_are_one()
    ensures { RuleFaultsAreOne }
{}
