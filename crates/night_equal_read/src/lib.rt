//! Partners read the files of a night as the definition says: by a sound setup and at any moment, what the layers give for a text is a
//! night of the definition with all that partners read in it (`IsNight` of `ReadBack`).
#![tactic(auto)]

mod laws;

pub use laws::{
    boxes_are_read, file_references_are_plain, known_texts_are_one, responses_are_read,
    ta1s_are_read, verdicts_are_true, whole_nights_are_one,
};
