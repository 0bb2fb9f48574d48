//! The list of faults that the definition of a night gives to a set is the list that the check of the set gives: the same faults, each
//! once, in one order.
#![tactic(auto)]

mod laws;

pub use laws::faults_are_one;
