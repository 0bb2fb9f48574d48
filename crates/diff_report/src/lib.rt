//! Two guides compared: what is printed of them, and the status.
//!
//! Proved: the text is that of the definition. The status is 0 exactly if each difference is wider, and then each set that meets the old
//! guide, looked at alone, meets the new one (`compared`).
//!
//! Source: own.
//!
//! Tests: `.ci/diff`.
#![tactic(auto)]

mod compare;

pub use compare::{Report, compared};
