//! The night of the layers is the night of the definition: by a sound setup and at any moment, each text has the acknowledgments, the
//! mailboxes, the report and the next counters that `night_of` gives.
#![tactic(auto)]

mod laws;

pub use laws::{answers_are_one, checks_are_one, nights_are_one};
