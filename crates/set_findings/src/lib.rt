//! What workers find out about a text before it is answered: its index, settled with the faults 1 to 9, and the check of each of its sets
//! by its sender's compiled guide.
//!
//! The headers of all pieces are looked for, and gathered; the marks of the pieces are taken, each under the pair that is likely there;
//! by both the text is read; each interchange is judged; the index is settled with the faults 1 to 8, and by it each place is recorded and
//! its set checked; what wasn't recorded, as somebody else's claim was lost, is recorded then; after that it is said which numbers
//! were used before.
//!
//! Proved:
//! - `FastGuides::of` compiles each guide of a setup, in their order;
//! - `FastGuides::guide_of` answers the compiled guide that the setup has for a partner's GS01, GS08 and ST01, and none where it has
//!   none;
//! - `settle_after` settles an index with the faults 1 to 8, gives the senders, and the faults 1 to 9 by the numbers that were seen in
//!   earlier batches (`number_register::Seen`), and adds those of its interchange places;
//! - `check_jobs` gives by the senders one job for each place of an index settled with the faults 1 to 8, in the order of places: at a
//!   set's place its check, where it is, by its sender's guide for its GS01, GS08 and ST01;
//! - `tell_each` goes once through the rows that the jobs gave. It says in each whether an earlier place has the place's number: of a
//!   group and a set exactly if the first use of the number is an earlier place, of an interchange if it has the fault 9. Once all jobs
//!   are done (`worked_out`), the rows are just what is asked before the text is answered;
//! - `find_out` gives the index of the text, settled with the faults 1 to 9, the sender of each interchange, and to each question that is
//!   asked before the text is answered its answer, in the order of places;
//! - `find_out_after` gives the same where interchanges come before the text, by their numbers, and the numbers after it. Neither names a
//!   cut, a worker or a gate: whatever they are, the answer is the same, or a refusal where memory or a thread is refused.
//!
//! A guide is found by an ordered map of these texts, one after the other, for each partner, so that a partner with many guides costs
//! little more than one with few. From the first guide with the same bytes on, guides are looked at one by one, since texts of other
//! lengths can have the same bytes; so are all where a text has more than 16 bytes. These costs aren't proved.
//!
//! Source: X12.5, interchange; X12.6, functional group and transaction set, and their headers. Pieces, places, phases, jobs and first uses
//! are own.
//!
//! Tests: `trial_nights`.
#![tactic(auto)]

mod alone;
mod checking;
mod few;
mod findings;
mod flags;
mod found;
mod guides;
mod heads;
mod index;
mod jobs;
mod judged;
mod lookup;
mod marks;
mod sent;
mod table;
mod work;

pub use alone::{SettledFaults, settle_after};
pub use found::{FoundAfter, FoundText, find_out, find_out_after};
pub use guides::FastGuides;
