ghost use Rattle.std.specs.Prelude.{◌≡◌, ◌∷◌, ◌<◌, ◌≤◌, drop, length, take};
ghost use Rattle.count_numbers.specs.Runs.{same_key};
ghost use Rattle.mailbox.specs.Grouping.{run_len};
ghost use Rattle.mailbox.specs.Rendered.{groups_of};

use crate::rendered::Rendered;

/// Whether two sets go into one group.
pub(crate) fn goes_with(a: &Rendered<'_>, b: &Rendered<'_>) -> bool
    ensures { result ≡ same_key a.now.key b.now.key }
{
    a.sender() == b.sender() && a.functional_id() == b.functional_id() && a.version() == b.version()
}

/// How many sets follow each other in the first group.
fn run_len(sets: &[Rendered<'_>]) -> usize
    requires { 0 < length sets.now }
    ensures value { result ≡ run_len sets.now }
    ensures some { 0 < result }
    ensures bound { result ≤ length sets.now }
{
    for last in 0..sets.len() - 1 {
        if !goes_with(&sets[last], &sets[last + 1]) {
            return last + 1;
        }
    }
    sets.len()
}

/// How many sets go into the first group.
pub(crate) fn first_group(sets: &[Rendered<'_>]) -> usize
    requires { 0 < length sets.now }
    ensures some { 0 < result }
    ensures bound { result ≤ length sets.now }
    ensures first { groups_of sets.now ≡ take result sets.now ∷ groups_of (drop result sets.now) }
{
    run_len(sets)
}
