//! The page of a night, for a browser: what there is to do at the hub, what its senders are told, its partners, and its sets.
//!
//! Proved:
//! - the page is the text of the definition on what it is made of (`append_page`): counts of rows by their outcomes; each cause of
//!   something to do once, in the order of bytes, with each row that has it; what acknowledgments say, for each partner of whom they say
//!   anything; for each partner whether it sent or received something; and a line for each row, or above 5,000 rows for each that is no
//!   delivery;
//! - what others chose is in it as a text (`html_text`), so no name, number or document puts markup into it;
//! - more than a hundred causes are counted, and the first hundred shown;
//! - the lines of `files.txt`, if the night has it, are in it; those that don't say that a file went in whole are among what there is to
//!   do, before all else. After them come the lines on refused interchanges in which further headers begin. A night with a record has its
//!   sum, and what the clock of the host said, at the end;
//! - `gives_totals` answers just whether the rows of a table give the totals of the night's report: so many interchanges are refused, so
//!   many sets are counted and accepted, and so many rows are held. A table that was cut between two rows gives others, unless all that
//!   is gone are further receivers of a set.
//!
//! It takes as much work as the rows have bytes, times the causes that are shown, and n log n to put partners and causes in order.
//!
//! Source: own.
//!
//! Tests: `.ci/find`.
#![tactic(auto)]

mod causes;
mod files;
mod firsts;
mod fixed;
mod inner;
mod lines;
mod name;
mod page;
mod partners;
mod record;
mod rows;
mod sets;
mod tags;
mod title;
mod todo;
mod told;
mod totals;

pub use fixed::{FOOT, HEAD};
pub use name::Name;
pub use page::{NightPage, append_page};
pub use record::RecordShown;
pub use told::PartnerTold;
pub use totals::gives_totals;
