//! What a guide that is accepted holds and can't be meant, or is dangerous: its warnings.
//!
//! Proved: `warnings_of` gives just the warnings that the definition lists, in its order: that of a group in which its sets don't usually
//! come; that of a header which may be let through; then
//! the ids of the dictionary that a segment position has too; then the elements by which no set can meet the guide (that none does is
//! proved in `unmet_law`); then the codes that can't be meant, node by node and element by element, of each list the first of each kind;
//! then the labels that no dependency names, and the codes of dependencies that the element can't have of which they speak.
//!
//! It goes over the guide once, looks each code up in the codes of its row, and each id of the dictionary among the segment positions, of
//! which a guide has 2,000 at most.
//!
//! Source: own; X12.5, interchange header, and the 999 guide (005010X231), IK304, for headers that are let through and for the dictionary;
//! X12.6, code lists.
//!
//! Tests: `trial_explain`.
#![tactic(auto)]

mod codes;
mod dependencies;
mod dictionary;
mod groups;
mod headers;
mod labels;
mod nodes;
mod rows;
mod unmet;
mod warning;
mod warnings;

pub use groups::usual_group;
pub use warning::{
    At, CodeDoubt, CodeWarning, DependencyWarning, DictionaryWarning, GroupWarning, LabelWarning,
    UnmetWarning, Warning,
};
pub use warnings::warnings_of;
