//! Guides: what a partner's implementation guide says of a transaction set, as a tree of segment slots and loops
//! with their uses, their elements' rows and conditions; and the check by which a guide is accepted. The
//! definitions of the places of a guide, of the placing of a set's segments, of what is wrong with its structure
//! and of the grammar by which a set meets a guide are here too, for the crates above.
//!
//! Proved: `Guide::check` accepts exactly the guides without a fault, and gives the rows with each slot's number;
//! it refuses with the first fault: none is judged before it. Two slots are found ambiguous exactly where two
//! places that may follow one lead to them, however often loops and segments are repeated. What is proved of placing
//! and grammar is in `guide_law`.
//!
//! Source: X12.6, transaction sets, loops, segments, data elements and relational conditions; the 999 guide
//! (005010X231), IK304. Slot numbers, picks, labels, dependencies and the limits are own.
//!
//! A call, as `trial_guides` makes it:
//!
//! ```
//! match Guide::check(rows_of(alloc, nodes)?) {
//!     Ok(_) => Ok(None),
//!     Err(fault) => Ok(Some(fault)),
//! }
//! ```
#![tactic(auto)]

mod bounds;
mod codes;
mod conditions;
mod element;
mod fault;
mod guide;
mod judge;
mod limits;
mod lookup;
mod node;
mod numbering;
mod rivals;
mod rows;
mod slot;

pub use codes::Codes;
pub use element::{
    CodeList, Component, CompositeRow, Element, ElementType, Requirement, SimpleRow,
};
pub use fault::GuideFault;
pub use guide::Guide;
pub use node::{Loop, Node};
pub use rows::{Dependency, DependencyKind, GuideHead, GuideRows, HlPair, HlRule};
pub use slot::{Condition, Pick, Relation, Slot};
