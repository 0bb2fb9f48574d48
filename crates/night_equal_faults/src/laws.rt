ghost use Rattle.night_equal_faults.specs.Faults.{FaultsAreOne};

use night_equal_set::{
    errors_are_one, faults_rise, firsts_stand, orders_are_one, rule_faults_are_one,
};
use night_equal_structure::structures_are_one;

/// A theorem, with nothing to run: a set has one list of faults.
pub fn faults_are_one()
    ensures { FaultsAreOne }
{
    structures_are_one();
    errors_are_one();
    rule_faults_are_one();
    orders_are_one();
    firsts_stand();
    faults_rise();
}
