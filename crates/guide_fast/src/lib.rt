//! Compiled guides: tables of a guide by which the place that comes next is found by searches, and no longer by looking at one
//! node after another.
//!
//! Proved: `FastGuide::turn_from` gives the place that `fit_behind` defines, which is the one that `loop_match` gives, whatever is
//! there: the innermost loop's candidate first, and of equal ids the first that the segment fits. `FastGuide::stray_code` gives the code
//! of a segment without a place, as `stray_code` defines it. `Children::needed_between` gives how many of some nodes are needed, which
//! is how many are reported if none of them comes.
//! `place_all_fast` gives what `place_all` of `loop_match` gives, by these.
//! `FastGuide::next_turn` gives the same place, by the turns that are kept of the last place's slot, and says of some that surely nothing
//! is reported at them.
//! `FastGuide::is_silent` says whether nothing is reported between the last place and the next: it is so exactly where `step_faults` has
//! no fault.
//!
//! Of each slot that at most thirty-two turns follow these are kept, the innermost loop's first: which they are depends on the children
//! that lead to the slot, but not on the uses. A next place by them costs a look at each turn's number up to the one that is taken.
//! Else the cost of a next place is the number of the segment's id, from its first four bytes, and for each loop round the last one a look
//! at the number of each node that comes later where these are at most thirty-two. Else its nodes are in an ordered map, each by the one
//! code of its slot's first pick, where the pick is of the id or one of the four elements after it and lists one, and by its id otherwise.
//! The segment's texts up to the last that such a pick is of are searched for there, then a place in the list of the nodes with each, and
//! of these nodes each is looked at that comes later, is before what was found so far, and doesn't fit by a further pick.
//! Whether a stray fits some slot is found likewise.
//! A node is asked whether the segment fits it only where the numbers agree; an id of one to three bytes is the segment's then.
//! Where its slot's first pick lists one code of one to three bytes, the number of the segment's element is compared with that of the code
//! first; the element is looked up once for all of these nodes.
//! Whether a step is silent takes some differences of counts for each loop. Memory and the building follow the nodes and the
//! dictionary, but for the logarithm of an ordered map. These costs aren't proved.
//!
//! Source: X12.6, order of segments in a transaction set; the 999 guide (005010X231), IK304. The tables are own.
//!
//! Tests: `trial_sets`, `trial_workers`.
#![tactic(auto)]

mod by_table;
mod children;
mod counts;
mod fast;
mod first_pick;
mod id_number;
mod index;
mod keys;
mod known;
mod next;
mod silent;
mod start;
mod station;
mod strays;
mod tables;

pub use by_table::place_all_fast;
pub use children::Children;
pub use fast::FastGuide;
pub use loop_match::Turn;
pub use station::NextTurn;
