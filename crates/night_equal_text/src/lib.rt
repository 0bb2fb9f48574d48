//! The definition of a night and the layers say the same of a text and its setup: interchanges, envelopes, faults 1 to 9, senders,
//! routes, guides, and the answers to groups once the answers to sets are the same.
#![tactic(auto)]

mod laws;

pub use laws::{
    answers_follow, contents_are_one, faults_alone_are_one, faults_are_one, group_codes_are_one,
    guides_are_one, interchanges_are_kept, nights_are_settled, reaches_are_one, routes_are_one,
    senders_are_one, set_numbers_are_one, sets_are_parts, texts_are_indexes,
};
