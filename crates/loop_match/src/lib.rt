//! Places: which segment slot of a guide each segment of a set's body is at, and what is wrong with the order and the
//! number of the segments.
//!
//! Proved: `place_all` gives each segment the place that may follow the last one given and that it fits, with its slot, or no place
//! where there is none; and its faults are exactly the structural faults of the body under that placing: uses past a maximum, what
//! is missing, what is used too few times, strays; each once, by position, code and slot. `placed_segments` gives the segments that
//! have places, each with its position, its slot and the loop that it is in: these and no other, in their order
//! (`placed_segments_have_places`). `place_by` is `place_all` by whatever finds the next place (`NextPlace`). For a walk of another crate,
//! `step`, `end` and `Found::stray` add to what was found (`Found`) what the one pass reports of a step, of the body's end and of a stray.
//!
//! Source: X12.6, order of segments in a transaction set; the 999 guide (005010X231), IK304.
//!
//! Tests: `trial_guides`, `trial_sets`.
#![tactic(auto)]

mod fit;
mod found;
mod law;
mod leaving;
mod loop_id;
mod next;
mod next_place;
mod pass;
mod place;
mod placed;
mod placing;
mod stepping;
mod steps;
mod stray;
mod walk;

pub use fit::{fits, text_at};
pub use found::{Found, first_id, max_of, min_of};
pub use law::placed_segments_have_places;
pub use loop_id::loop_id_of;
pub use next::{Start, Step, Turn, again, start_of};
pub use next_place::NextPlace;
pub use placed::{PlacedSeg, placed_segments};
pub use placing::{Placing, place_all, place_by};
pub use steps::{end, step};
