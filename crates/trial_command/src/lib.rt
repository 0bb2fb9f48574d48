//! Trials of `night_command`: complete nights in folders of the system; and readers, writers, folders and the memory, failing at each call
//! in turn. Files and arguments that are refused, and what is then printed, are tried with the program (`tests/pages/errors.py`).
//!
//! Nothing is proved here but that the trials are safe and end.
#![tactic(auto)]

#[cfg(test)]
mod examples;
#[cfg(test)]
mod fault_tests;
#[cfg(test)]
mod tests;
