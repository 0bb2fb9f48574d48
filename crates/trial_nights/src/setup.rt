//! Trials of `partner_setup`: a setup file and a counters file of two partners, read, built with two small guides, looked up and
//! written again; files, rows and counters beside their first refusals; a text that is checked by the setup, down to its
//! acknowledgment, a mailbox and the report; and texts that are answered by what was found out about their sets beforehand.
pub mod built;
mod counters;
mod envelopes;
mod examples;
mod files;
mod found;
mod lookups;
mod nights;
mod refusals;
