//! What a night is: the definitions that a person reads to know what the hub does. `night_of text setup at` is a function of the bytes
//! that came in, the setup and the moment; it gives the acknowledgments, the mailboxes, the report and the next counters. It names no
//! piece, worker, index or buffer, and it computes: the examples are in `night_examples`.
//!
//! How to read it, in an hour. Each file of `specs/` is one idea, rests on those before it, and begins with its source (X12.5, X12.6, the
//! 999 implementation guide); a rule marked "own" is this hub's.
//! - The text: `Header`, `Segments`, `Envelopes`, `Interchanges`.
//! - A set by its guide: `Guides`, `Values`, `Elements`, `Places`, `Structure`, `Rules`, `Codes`, `Sets` (which ends with `Meets`).
//! - The setup and the answers: `Setup`, `Answers`.
//! - What is written: `Written`, `Acknowledgments`, `Deliveries`, `Report`.
//! - The night: `Night`. What partners read in it: `ReadBack` (`IsNight`).
//! - The files of a hub: `Tables`, `GuideFile`, `SetupFile`, `Program` (`IsRun`).
//!
//! The crates that do the work have other definitions, in the forms that their proofs like. The crates called `night_equal_` prove that
//! the two say the same, layer by layer, and `night_equal_night` that each night of the one is the night of the other;
//! `night_equal_read`, that partners read it so.
#![tactic(auto)]
