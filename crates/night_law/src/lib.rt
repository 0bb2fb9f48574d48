//! The theorems of a checked text and of a night: when a set is accepted and a number is reported as used, what acknowledgments and
//! mailboxes say, and how partners read them. Theorems alone: none of these calls does anything. A run promises all that is said of its
//! night as one record of the complete night (`IsWholeNight`).
//!
//! Proved of a checked text:
//! - its interchanges are answered in one way (`answers_are_one`), and the answer to a set says that it is accepted exactly where the set
//!   meets its guide and no earlier set of its group has its ST02 (`accepted_as_it_meets`);
//! - a duplicate, a group's code 19 and a set's code 23 are reported exactly where the first use of the number, by the order of places, is
//!   an earlier place (`numbers_told_by_first_use`), and so it is asked before a text is answered (`asked_by_first_use`).
//!
//! Proved of a night:
//! - a text, a setup and a moment have one night (`night_is_one`);
//! - the bytes of its acknowledgments are, one after the other, those of the interchanges that are answered, with a 999 for each
//!   group and an AK2 loop for each set; the loop ends with an IK5 whose code is A exactly where the set meets its guide and no
//!   earlier set of its group has its ST02, and then reports nothing else; AK9 has the group's verdict, counts and codes
//!   (`sets_are_told_as_they_meet`);
//! - a partner that reads its acknowledgments by its delimiters finds in them ST01, ST02 and IK501 of each of its sets
//!   that is reported to it, in their order, and no other response (`acknowledgments_are_read_as_sets_meet`), where its element separator
//!   and terminator are in no reference number of its guides, so in none of letters and digits (`plain_references_are_quoted`);
//! - it finds in them too exactly one TA1 for each of its interchanges that is answered, in their order, with ISA13, A or R and the note
//!   (`ta1s_are_read_as_interchanges_are_answered`);
//! - a partner that reads its mailbox by its delimiters finds in it just the sets that are delivered to it, in their order, each with what
//!   its sender wrote, down to the components, but for ST02 and SE (`mailboxes_are_read_as_sets`);
//! - its next counters are those of the tallies of what it sends, and a tally of that among all, in whatever order they are counted,
//!   gives them and its first numbers too (`counters_are_tallied`).
//!
//! X12.5, interchange; X12.6, functional group and transaction set; 999 guide (005010X231).
#![tactic(auto)]

mod laws;

pub use laws::{
    accepted_as_it_meets, acknowledgments_are_read_as_sets_meet, answers_are_one,
    asked_by_first_use, counters_are_tallied, mailboxes_are_read_as_sets, night_is_one,
    numbers_told_by_first_use, plain_references_are_quoted, sets_are_told_as_they_meet,
    ta1s_are_read_as_interchanges_are_answered,
};
