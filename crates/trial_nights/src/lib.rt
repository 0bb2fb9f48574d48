//! Trials of `hub_run` and `night_stream`: whatever the workers, the pieces and the windows are, a run of two partners gives the night of
//! the run on one thread, hostile bytes and failing reads included. Beside them the trials of `partner_setup`, and of a text that is
//! checked by a setup, down to its acknowledgment, a mailbox and the report (`setup`). Complete nights, byte for byte, are in
//! `tests/nights`.
//!
//! Nothing is proved here but that the trials are safe and end. The guides of a night are the house guides.
#![tactic(auto)]

#[cfg(test)]
mod gates;
#[cfg(test)]
mod hostile;
#[cfg(test)]
mod night;
#[cfg(test)]
mod pieces;
#[cfg(test)]
mod runs;
#[cfg(test)]
mod setup;
#[cfg(test)]
mod setups;
#[cfg(test)]
mod shared;
