//! The kinds of values that the hub's crates share: what is wrong with a segment, an element, a set,
//! a group or an interchange, the texts of these codes, the order of faults, what an acknowledgment
//! reads of a group and of a set, and small types over lists and lent bytes.
//!
//! Proved:
//! - `code_text` gives the text of each code, and `code_of` the code of each of these texts and of
//!   no other;
//! - `fault_order`, `element_fault_order` and `place_order` are the orders of the keys, by their numbers
//!   from first to last, and `interchange_fault_order` that of the faults' numbers; `note_text` gives the note of
//!   a TA1;
//! - `in_order` gives the same values in the order of their keys, each once;
//! - `within_limit` is the test of a text's length;
//! - `read_number` reads exactly the numbers of 1 to that many digits; `is_alphanumeric` and
//!   `is_segment_id` are exact;
//! - `contains_text` says exactly whether a text is one of a list;
//! - `Items` and `Lent` are the list and the bytes that they were made from, `copy_text` a copy of them.
//!
//! 999 guide (005010X231), the code lists of IK304, IK403, IK501, IK502, AK901 and AK905; X12.5,
//! interchange control; X12.6, data element type N0.
//!
//! As its trial, the crate `trial_texts`, calls it:
//!
//! ```rust
//! same(rt.alloc(), Lent::new(b"ACME").bytes(), b"ACME")?;
//! let items = Items::from_vec(Vec::from_slice(rt.alloc(), b"ACME")?);
//! holds(items.as_slice() == b"ACME".as_slice(), "another list")?;
//! ```
#![tactic(auto)]

mod answers;
mod codes;
mod counters;
mod fault;
mod fault_rows;
mod faults;
mod interchange;
mod items;
mod lent;
mod limits;
mod memory;
mod numbers;
mod place;
mod rising;
mod row;
mod row_fault;
mod row_key;
mod set_codes;
mod text_list;
mod texts;
mod twice;
mod words;

pub use answers::{GroupAnswer, SetAnswer};
pub use codes::{Code, ElementCode, SegmentCode, code_of, code_text};
pub use counters::Counters;
pub use fault::{ElemFault, Fault, FaultHead, NO_NUMBER, element_fault_order, fault_order};
pub use faults::Faults;
pub use interchange::{InterchangeFault, acknowledgment_code, interchange_fault_order, note_text};
pub use items::{Items, Text, Texts, copy_text};
pub use lent::Lent;
pub use limits::{
    LONGEST_TEXT, MOST_COMPONENTS, MOST_CONTROL_DIGITS, MOST_COUNT_DIGITS, MOST_ELEMENTS,
    MOST_NODES, MOST_REPEATS, within_limit,
};
pub use memory::NoMemory;
pub use numbers::{is_alphanumeric, read_number};
pub use place::{Place, place_order};
pub use rising::{Keyed, in_order};
pub use set_codes::{GroupCode, GroupVerdict, SetCode, Verdict};
pub use text_list::contains_text;
pub use twice::has_twice;
pub use words::is_segment_id;
