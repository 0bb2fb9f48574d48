//! Words for the refusals of guides and setups, and for the warnings of guides and setups: one sentence for each, which names the node, the
//! two slots and a segment that fits both, the partner, the route or the row of counters.
//!
//! Proved:
//! - of a setup or of counters, which sentence of `words` is printed of which row, by its number and its name, in which order, and with
//!   which details;
//! - which bound, which beginning of a loop and which condition of a guide's node is at fault (`bounds_at`, `trigger_at`, `condition_at`),
//!   for each node in its order (`node_faults`), and that the segment which is shown for two slots fits both (`append_guide_words`).
//!
//! The sentences are data: how each reads is only tested, and so are all sentences on a guide.
//!
//! Source: own; X12.6, segment, for the segment that is shown.
//!
//! Tests: `trial_explain`.
#![tactic(auto)]

mod bounds;
mod bounds_words;
mod common;
mod condition_words;
mod conditions;
mod delimiters;
mod doubtful_partners;
mod guide_words;
mod ids;
mod kept_rows;
mod named;
mod named_alike;
mod nodes;
mod nodes_said;
mod rows;
mod rows_said;
mod sentence;
mod setup_warnings;
mod setup_words;
mod trigger_words;
mod triggers;
mod warning_words;
mod words;

pub use common::common_segment;
pub use guide_words::append_guide_words;
pub use kept_rows::KeptRows;
pub use nodes_said::{NodeFault, node_faults, node_texts};
pub use rows_said::{push_counters_said, push_setup_said};
pub use sentence::{Detail, Sentence, append, append_number, append_sentence, in_place};
pub use setup_warnings::setup_warning_texts;
pub use setup_words::append_setup_words;
pub use warning_words::warning_text;
