//! A folder of sets that show how two guides differ: for each difference that isn't wider a file, if a set is known that the old guide
//! takes and the new one reports for just this difference, and a list of all these differences.
//!
//! Proved: what `put_samples` puts into a folder is just the files of the definition. Each text has one set, which meets the old guide,
//! looked at alone; by the new guide it has one fault, which the difference makes, where the guides differ. The list has a row for each
//! difference that isn't wider, in their order: its line, and the file's name with what a 999 says of the set, if one is known. Nothing
//! is said of a difference without a set.
//!
//! Cost: for each difference that isn't wider some tens of texts are tried at most, each by two checks.
//!
//! Source: own.
//!
//! Tests: `.ci/diff`.
#![tactic(auto)]

mod index;
mod samples;

pub use samples::put_samples;
