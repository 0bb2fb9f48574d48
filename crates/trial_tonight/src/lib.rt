//! Trials of `hub_tonight`: a night whose partners continue where their addresses were left, or begin with a first counters file, down to
//! every byte that is given; and files that are refused.
//!
//! Nothing is proved here but that the trials are safe and end.
#![tactic(auto)]

#[cfg(test)]
mod examples;
#[cfg(test)]
mod tests;
