//! Trials of `track_command`: the table of a night with all that may be in its fields; arguments that are no command line; readers and
//! outboxes that fail; and a drive of which each call fails in turn, on which no part of a file is left.
//!
//! Nothing is proved here but that the trials are safe and end.
#![tactic(auto)]

#[cfg(test)]
mod drive;
#[cfg(test)]
mod examples;
#[cfg(test)]
mod fault_tests;
#[cfg(test)]
mod place_tests;
#[cfg(test)]
mod tests;
#[cfg(test)]
mod word_tests;
