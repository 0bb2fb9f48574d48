//! Headers inside interchanges that are refused. An interchange that lost its end, or whose bytes were damaged, may take what comes after
//! it for its own: what the headers there begin isn't read, so no answer mentions it.
//!
//! Proved:
//! - `inner_lines` gives for a text the lines of the definition: one for each interchange of its index that has one of the faults 1 to 7
//!   and in which a further header begins. The line has the interchange's number and offset, and how many headers these are.
//!
//! It takes as much work as the text has bytes.
//!
//! Source: X12.5, interchange control header (ISA). The lines are own.
//!
//! Tests: none yet, since no program calls it.
#![tactic(auto)]

mod inner;

pub use inner::inner_lines;
