//! The trial of what reads a text, x12_bytes, x12_segs, hub_kinds and env_index: texts read through their public calls, with the answers
//! that the standard and the 999 guide give for them. Beside it the trials of what is written, x12_write and ack_999 (`acknowledgments`),
//! and of count_numbers, whose tallies are gathered from pieces by env_marks (`numbers`). It has no code of its own.
//!
//! X12.5, interchange control header, functional groups and transaction sets; X12.6, data segment and data element; 999 guide, the code
//! lists of IK304, IK403, IK501, IK502, AK901 and AK905.
#![tactic(auto)]

#[cfg(test)]
mod acknowledgments;
#[cfg(test)]
mod envelopes;
#[cfg(test)]
mod faults;
#[cfg(test)]
mod headers;
#[cfg(test)]
mod indexes;
#[cfg(test)]
mod interchange_faults;
#[cfg(test)]
mod interchanges;
#[cfg(test)]
mod kinds;
#[cfg(test)]
mod numbers;
#[cfg(test)]
mod orders;
#[cfg(test)]
mod segments;
#[cfg(test)]
mod texts;
