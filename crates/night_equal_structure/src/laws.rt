ghost use Rattle.night_equal_structure.specs.UseFaults.{UseFaultsAreOne};
ghost use Rattle.night_equal_structure.specs.Structures.{StructuresAreOne};

use guide_law::placing_is_grammar;
use night_equal_set::{placings_are_one, strays_are_one};

/// A theorem, with nothing to run: segments and loops used too often or too seldom are reported alike.
pub fn use_faults_are_one()
    ensures { UseFaultsAreOne }
{
    placings_are_one();
    placing_is_grammar();
}

/// A theorem, with nothing to run: a body has the same structural faults.
pub fn structures_are_one()
    ensures { StructuresAreOne }
{
    use_faults_are_one();
    strays_are_one();
}
