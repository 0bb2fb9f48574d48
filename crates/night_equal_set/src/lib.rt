//! The definition of a night and the layers say the same of a set: its places, faults, codes and verdict, and whether it meets its
//! guide.
//!
//! Segments used too often or too seldom (`past_faults`, `few_faults`, `faults_in`) are in `night_equal_structure`; that `faults_by` is the
//! list of a checked set is in `night_equal_faults`.
#![tactic(auto)]

mod laws;

pub use laws::{
    conditions_are_one, dependency_faults_are_one, derivations_are_one, element_faults_are_one,
    errors_are_one, faults_rise, firsts_stand, group_trailers_are_one, group_verdicts_are_one,
    hierarchies_are_one, hl_faults_are_one, meetings_are_one, orders_are_one, placed_are_one,
    placings_are_one, rule_faults_are_one, set_codes_are_one, strays_are_one, targets_are_one,
    values_are_one, verdicts_are_one,
};
