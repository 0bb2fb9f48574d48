//! The names file that the arguments of a program name: what was read at its path.
//!
//! Proved: the file that was read at the path is taken with the words of its bytes, or refused in the words of its fault (`names_at`).
//!
//! Only tested: that the system opens the file that it is asked for.
//!
//! Source: own.
//!
//! Tests: `.ci/samples`.
#![tactic(auto)]

mod at;

pub use at::names_at;
