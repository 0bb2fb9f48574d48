//! The trial of what workers share: the desk (claim_desk) by two threads, jobs done by up to 64 workers (job_pool), keys by position
//! (number_register), the rule of claims, records and finishes (work_core), the register of control numbers (number_register) by one
//! thread and by four, over the index of a text, and the phases of a text's work (worker_pool) by up to 64 workers and after gates
//! that make two workers meet, or one wait for the other. It has no code of the program.
//!
//! X12.5, interchange control number; X12.6, functional group and transaction set control number.
#![tactic(auto)]

#[cfg(test)]
mod books;
#[cfg(test)]
mod checking;
#[cfg(test)]
mod desks;
#[cfg(test)]
mod events;
#[cfg(test)]
mod gates;
#[cfg(test)]
mod phases;
#[cfg(test)]
mod pools;
#[cfg(test)]
mod recording;
#[cfg(test)]
mod records;
#[cfg(test)]
mod shared;
#[cfg(test)]
mod texts;
