ghost use Rattle.mailbox.specs.Accounted.{SetsAreAccounted};
ghost use Rattle.mailbox.specs.Rendered.{BoxesAreRendered};
ghost use Rattle.mailbox.specs.Tallied.{GroupsAreCounted, GroupsAreLaidOut, GroupsAreRuns};

/// The groups of a mailbox are the maximal runs of its sets' keys, as a tally counts them, and those of each delivered interchange
/// are as they are laid out by the keys, and as many in all (X12.6, functional group). It does nothing: its contract is the theorem.
pub fn groups_are_runs()
    ensures runs { GroupsAreRuns }
    ensures layout { GroupsAreLaidOut }
    ensures count { GroupsAreCounted }
{}

/// A set that may be delivered is reported exactly once for each receiver of its route: it is in that receiver's mailbox, or in a
/// held line that names it. Without a route it is in one held line. No other partner is sent it or named, and of a set that may
/// not be delivered nothing is reported (X12.6, transaction set). It does nothing: its contract is the theorem.
pub fn sets_are_accounted()
    ensures { SetsAreAccounted }
{}

/// A mailbox by the sets that were written for it, each kept as its text and what it has in common with the sets of its group, is the
/// mailbox of these sets, with as many groups (X12.5, interchange; X12.6, functional group). It does nothing: its contract is the theorem.
pub fn boxes_by_rendered()
    ensures { BoxesAreRendered }
{}
