ghost use Rattle.std.specs.Prelude.{Bool, Option};
ghost use Rattle.guide_tree.specs.Words.{GuideTree};
ghost use Rattle.set_check.specs.Checked.{Checked, IsChecked};
ghost use Rattle.set_check.specs.CheckedLaw.{IsAcceptedAsItMeets, IsOneCheck};
ghost use Rattle.set_check.specs.MeetsLaw.{IsCleanAsItMeets, IsWellGuided};

/// Under a guide without fault a set has no fault and no code exactly where it meets its guide, looked at alone; without a
/// guide it never does either. It does nothing: its contract is the theorem.
pub fn clean_sets_meet_their_guides()
    ensures { (guide : Option GuideTree) → IsWellGuided guide → IsCleanAsItMeets guide }
{}

/// A checked set is accepted exactly where it meets its guide, looked at alone, and no earlier set of its group has its ST02. It
/// does nothing: its contract is the theorem.
pub fn accepted_sets_meet_their_guides()
    ensures { (c : Checked) (earlier : Bool) → IsChecked c → IsAcceptedAsItMeets c earlier }
{}

/// A set is checked in one way: the same span of the same text by the same guide has the same faults and codes. It does
/// nothing: its contract is the theorem.
pub fn checks_are_one()
    ensures { (c d : Checked) → IsChecked c → IsChecked d → IsOneCheck c d }
{}
