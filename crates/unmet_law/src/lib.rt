//! A guide that is warned of as one that no set can meet is met by none. Theorems alone: none of these calls does anything.
//!
//! Proved: where each set needs a segment position with a mandatory element whose type or lengths allow none of its codes, some segment of
//! each body that the guide derives has an element at fault (`unmet_is_faulty`), so that no set meets the guide (`unmet_is_met_by_none`).
//! Other guides that no set meets are not known by this.
//!
//! Source: X12.6, code lists, segments and loops; the 999 guide (005010X231), IK403 1, 4 to 9 and I6. The warning is own.
#![tactic(auto)]

mod laws;

pub use laws::{unmet_is_faulty, unmet_is_met_by_none};
