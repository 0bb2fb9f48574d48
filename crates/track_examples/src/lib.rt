//! Worked examples of the table that says where each set of a night is: each public function is a theorem with nothing to run. Its contract
//! says what the definition gives for one night of `tests/nights`, byte for byte, and the prover computes it.
//!
//! `.ci/worked_nights` writes them from the folders that have a `track.csv`, and the gate fails if they aren't those.
#![tactic(auto)]

mod table_laws;
