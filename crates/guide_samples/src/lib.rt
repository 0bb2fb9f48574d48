//! Sample files of a guide: a complete one, the smallest one, and for each rule of the guide one that breaks just this rule. A generator
//! makes texts, of which nothing is believed: each is judged by the check of sets before it is given.
//!
//! Proved:
//! - a text that `complete` or `smallest` gives has one set, and this set meets the guide, looked at alone (`IsSample`);
//! - a text that `Rules::broken` gives has one set, and by the guide this set has one fault, which is one of the rule with that number;
//!   the lines beside it are the IK3 and IK4 of a 999 for just this fault (`BreaksRule`);
//! - `Rules::count` is the number of rules that are tried, and there is one only if a sample is known;
//! - a text that `sample_between` gives for a difference of two guides has one set, which meets the old guide, looked at alone; by the new
//!   guide this set has one fault, which the difference makes, where the guides differ; the lines beside it are those of a 999
//!   (`ShowsDifference`);
//! - each call ends. Where none is given, nothing is said of the guide.
//!
//! All is said in the words of `night_definition`.
//!
//! A sample has one use of each segment and loop, or as many as the guide asks for at least, and takes one check. Each rule that is tried
//! takes another check, and a guide has about as many rules as elements.
//!
//! Source: X12.5, interchange; X12.6, transaction sets, segments and data elements; the 999 guide (005010X231), IK3 and IK4. What the
//! samples contain is own.
#![tactic(auto)]

mod attempts;
mod between;
mod broken;
mod build;
mod element_trials;
mod hierarchy_trials;
mod judge;
mod levels;
mod node_trials;
mod plan;
mod presence;
mod rule;
mod samples;
mod set_trials;
mod slot_trials;
mod spot_trials;
mod stray_trials;
mod trial;
mod values;
mod write;

pub use between::sample_between;
pub use broken::{Broken, Rules};
pub use rule::Rule;
pub use samples::{complete, smallest};
