//! Which transaction sets may be delivered, the outcome of one for a receiver of its route, and what a partner finds in its
//! mailbox: its delivered sets, numbered anew, in interchanges and groups of its own, in its delimiters. A delivered set is a place in
//! its interchange; once it is written it is kept as its text, and the mailbox is closed from these texts, so that sets may come in
//! batches, each of which is released when its sets are written.
//!
//! Proved:
//! - `is_deliverable` and `outcome_at` are their definitions: which verdicts, groups and interchanges a set may be delivered from,
//!   and whether a byte that is kept of it is in the way;
//! - `all_outcomes` gives the outcomes of all sets of interchanges, front to back, and `deliver` gives each partner, by these outcomes,
//!   exactly the sets that are delivered to it by the definition, front to back; `joined_deliveries` gives those of interchanges
//!   and of the interchanges after them, whoever looked at which;
//! - `render_set` appends a set with ST02 and SE written anew and each delimiter changed to the receiver's; where memory is refused it
//!   leaves what was there, and a part after it;
//! - `render_deliveries` writes for each partner the sets that are delivered to it after those that were written before, numbered on
//!   throughout, from `nothing_rendered` on;
//! - `close` writes exactly the mailbox of the definition by written sets: interchanges that hold as many sets as the partner's cap
//!   says, numbered after its acknowledgments, in each the longest groups of sets of one sender, GS01 and GS08, and groups that are
//!   numbered throughout, after those of its acknowledgments; and it answers how many groups these are;
//! - what it writes is held as it was written (`Woven`): the sets in the rows of the threads that wrote them, the envelopes in a text of
//!   their own; its `parts`, one after the other, are the mailbox, so that no set is copied when a mailbox is closed;
//! - the mailbox by the sets that were written is the mailbox of the sets themselves (`boxes_by_rendered`), and `assemble` writes it;
//! - the groups of a mailbox are the maximal runs that a tally counts, interchange by interchange, and as many in all
//!   (`groups_are_runs`);
//! - a set that may be delivered is, for each receiver of its route exactly once, in that receiver's mailbox or in a held line that
//!   names it; without a route it is in one held line (`sets_are_accounted`).
//!
//! Source: X12.5, interchange; X12.6, functional group and transaction set; who is sent what, and how it is numbered, is own.
//!
//! Tests: `trial_nights`.
#![tactic(auto)]

mod assembling;
mod blocking;
mod deliveries;
mod delivering;
mod eligible;
mod gapless;
mod group_text;
mod grouping;
mod inner;
mod joined;
mod kept;
mod laws;
mod mapped;
mod outcome;
mod outcomes;
mod parts;
mod receiving;
mod render;
mod render_batch;
mod rendered;
mod rendered_sets;
mod row;
mod woven;
mod writers;

pub use assembling::{Mailbox, assemble, close};
pub use deliveries::{Delivered, Deliveries};
pub use delivering::deliver;
pub use eligible::is_deliverable;
pub use joined::joined_deliveries;
pub use laws::{boxes_by_rendered, groups_are_runs, sets_are_accounted};
pub use outcome::Outcome;
pub use outcomes::{SetOutcomes, all_outcomes};
pub use receiving::outcome_at;
pub use render::render_set;
pub use render_batch::{nothing_rendered, render_deliveries};
pub use rendered_sets::{RenderedSets, Row};
pub use woven::Woven;
pub use writers::Writers;
