//! Trials of `explain_command`: each code in its words; texts that are no acknowledgments, and acknowledgments cut at each byte; files and
//! arguments; and readers and writers, failing at each call in turn. And of `check_command`: a standard output that fails.
//!
//! Nothing is proved here but that the trials are safe and end.
#![tactic(auto)]

#[cfg(test)]
mod check_tests;
#[cfg(test)]
mod code_tests;
#[cfg(test)]
mod cut_tests;
#[cfg(test)]
mod examples;
#[cfg(test)]
mod fault_tests;
#[cfg(test)]
mod file_tests;
#[cfg(test)]
mod readers;
