//! The text of acknowledgments: for an interchange an interchange acknowledgment (TA1), for each functional group an
//! implementation acknowledgment (999), and around them an interchange from the hub to a partner. A group's codes and its verdict
//! are found here too. All is written with the partner's delimiters, with no byte between segments and without the empty elements at
//! a segment's end.
//!
//! Proved:
//! - `write_999` writes exactly the 999's segments, among them what is reported of each set's faults,
//!   and SE01 is their number; read again by the same delimiters, the text has these segments;
//!   `append_999` writes it after what is there; `append_head`, `append_set` and `append_tail` write the same, one part after another;
//! - `write_ta1` writes exactly the TA1: ISA13, ISA09 and ISA10 of the interchange that is answered, A where the note is `000` and
//!   else R, and the note; `append_ta1` writes it after what is there;
//! - `write_ack_interchange` writes exactly the interchange: its header in its fixed width, the TA1 if there is one, the group of the
//!   999s if there are any, and the trailer with the number of groups; `append_ack_group_header` writes the header of that group; the
//!   interchange's header is read again where the envelope is fit to be sent;
//! - of faults that are in their order, each once, each position is reported by an IK3 for each structural fault and one IK3
//!   with code 8 for all element faults together, with an IK4 for each after it (`each_position_is_told`);
//! - a call that appends keeps what was there before, also where memory is refused;
//! - `group_codes` gives the group's codes, in their order;
//! - `group_verdict` works on counts and answers the verdict that the sets' verdicts give; totals that
//!   are no sets' it judges by their numbers.
//!
//! Source: the 999 guide (005010X231), ST, AK1, AK2, IK3, IK4, IK5, AK9 and SE; X12.5, interchange control
//! header and trailer, interchange acknowledgment (TA1); X12.6, functional group header and trailer, segment.
//!
//! As its trial, the crate `trial_texts`, calls it:
//!
//! ```rust
//! let report = acknowledgment(alloc, &ACCEPTED_GROUP, &[ACCEPTED_SET], 1)?;
//! write_ack_interchange(alloc, &envelope(), at, 1, 1, None, &[Items::from_vec(report)])
//! ```
#![tactic(auto)]

mod codes;
mod copy;
mod counts;
mod faults;
mod interchange;
mod law;
mod notes;
mod report;
mod support;
mod ta1;
mod totals;
mod trailer;
mod verdict;

pub use codes::group_codes;
pub use counts::{accepted_sets, totals_of};
pub use interchange::{append_ack_group_header, write_ack_interchange};
pub use law::each_position_is_told;
pub use report::{append_999, append_head, append_set, append_tail, write_999};
pub use support::GroupSupport;
pub use ta1::{append_ta1, write_ta1};
pub use totals::Totals;
pub use trailer::GroupTrailer;
pub use verdict::group_verdict;
pub use x12_write::Envelope;
