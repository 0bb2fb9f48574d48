//! Each text has a night of the layers, so what the definition of a night gives is one: for a setup whose guides are accepted, as those of
//! each setup that is built are (`guides_are_accepted` of `accepted_guides`).
#![tactic(auto)]

mod laws;

pub use laws::{
    each_group_has_its_answers, each_set_has_its_faults, each_text_has_a_night,
    each_text_has_an_index, faulty_guides_answer_nothing, layers_follow,
    nights_are_the_definitions,
};
