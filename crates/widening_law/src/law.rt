ghost use Rattle.widening_law.specs.Law.{EachGuideIsAsWide, WiderGuidesTakeEachSet, WiderGuidesTakeMore};

use night_equal_set::{
    derivations_are_one, element_faults_are_one, hierarchies_are_one, targets_are_one,
};

/// A theorem, with nothing to run: if `is_wider` holds of two guides, each set that meets the old guide, looked at alone, meets the new
/// one.
pub fn wider_guides_take_more()
    ensures { WiderGuidesTakeMore }
{}

/// A theorem, with nothing to run: if `is_wider` holds of two accepted guides, each set that meets the old guide by the definition of a
/// night, looked at alone, meets the new one.
pub fn wider_guides_take_each_set()
    ensures { WiderGuidesTakeEachSet }
{
    derivations_are_one();
    element_faults_are_one();
    hierarchies_are_one();
    targets_are_one();
}

/// A theorem, with nothing to run: `is_wider` holds of each accepted guide and itself.
pub fn each_guide_is_as_wide()
    ensures { EachGuideIsAsWide }
{}
