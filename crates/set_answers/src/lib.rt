//! What is known of a text once its sets are checked: which of its interchanges are refused, what is answered to the groups and
//! sets of the others, and the acknowledgments that each partner is sent.
//!
//! Proved:
//! - `settled_faults` gives each interchange of an index its least fault of 1 to 9: 8 where no partner of the setup is its
//!   sender, 9 where an earlier interchange without faults 1 to 8 has the same number. `faults_alone` gives the senders and the faults 1
//!   to 8, and `faults_behind` gives by these the faults 1 to 9 where interchanges come before the index, by their numbers alone;
//! - `check_text` checks each set of the interchanges without a fault by its sender's guide, and answers each group and set: the
//!   standings that it leaves, and the acknowledgments of each partner, byte for byte, are those of these answers, after the
//!   acknowledgments that stood before;
//! - `answer_found` gives the same answers by the senders and by what was found out at each place of the index before; `check_text` finds
//!   both out first;
//! - `answers_to` answers the groups of one interchange, and `judge` gives it the standings that these answers leave;
//! - the acknowledgment of an interchange has a TA1 where it is answered with one, and a 999 for each group but those of acknowledgments;
//!   it takes its partner's next interchange number, and its group, where it has 999s, the next group number.
//!
//! The theorems of these answers, such as that a set is reported as accepted exactly where it meets its guide, are in `night_law`.
//!
//! Numbers are looked up in ordered sets, so that the cost follows the bytes but for a logarithm, whatever numbers somebody
//! chooses. What was found out about a text is held until it is answered, and the answers to one interchange at a time.
//!
//! Source: X12.5, interchange sender and control number, interchange acknowledgment (TA1); X12.6, functional group and transaction
//! set; 999 guide (005010X231).
//!
//! Tests: `trial_nights`.
#![tactic(auto)]

mod acknowledge;
mod acknowledgment;
mod answered;
mod batch;
mod counting;
mod ends;
mod files;
mod finding;
mod found;
mod groups;
mod halving;
mod headers;
mod numbers;
mod reports;
mod rows;
mod seen;
mod sending;
mod sent;
mod settled;
mod spot;
mod standings;
mod support;
mod walk;
mod writers;

pub use answered::AnsweredGroup;
pub use files::Acknowledgments;
pub use rows::FoundRows;
pub use settled::{FaultsAlone, faults_alone, faults_behind, settled_faults};
pub use spot::answers_to;
pub use walk::{CheckedText, answer_found, check_text, judge, no_acknowledgments};
pub use writers::ReportWriters;
