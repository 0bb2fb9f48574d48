ghost use Rattle.count_numbers.specs.Counted.{NumbersAreCounted};
ghost use Rattle.count_numbers.specs.Layout.{GroupsAreCounted, RunsSuffice, SetsAreCounted};
ghost use Rattle.count_numbers.specs.Tally.{PieceLaws};

/// A theorem, with nothing to run: tallies join like the stretches that they are of.
pub fn tally_laws()
    ensures { PieceLaws }
{}

/// A theorem, with nothing to run: delivered interchanges and their groups follow from the runs of a tally, and so do the number of
/// these groups and that of delivered sets.
pub fn runs_suffice()
    ensures layout { RunsSuffice }
    ensures groups { GroupsAreCounted }
    ensures sets { SetsAreCounted }
{}

/// A theorem, with nothing to run: the first numbers and the next counters that a tally gives of fewer than 2^64 acknowledgments and
/// delivered sets are those after that many of them.
pub fn numbers_are_counted()
    ensures { NumbersAreCounted }
{}
