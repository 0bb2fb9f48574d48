//! Files of a day, one after another: each goes in without the blanks at its front and the padding at its end, and closed, so that it
//! stands alone, whichever files come after it. What is promised of a file is said by the definition of a night: which files stand
//! alone, how one ends, and what more bytes can still change in it. Theorems, with nothing to run, say that the layers' relations, by
//! which this is proved, say the same; and where each file stands apart, that the index of them all is the index of each, moved to
//! where it is.
//!
//! Proved:
//! - `gather_file` puts a file in just so: from its first header on, without the NUL and Ctrl-Z that fill its end, byte for byte, but for
//!   what closes it, seventeen bytes at most; a night reads it alone, whichever files come after it, and finds in it as many interchanges
//!   as are counted;
//! - it is reported as whole or mended only if a night reads it alone whatever bytes come after it, as cut off only if its last interchange
//!   is open, and as cut off in a header only if more bytes can complete one; that the IEA of an open interchange is written with another
//!   separator than its ISA names is said exactly where its last segment is such an IEA;
//! - nothing is put after a file that lacks nothing;
//! - a file that isn't taken has the cause that is named, and nothing of it is written;
//! - a file goes in by the layers exactly if it does by the definition of a night (`goes_in_is_one`);
//! - a file stands alone exactly if its interchanges continue up to its end whatever file follows, and it has as many interchanges
//!   (`alone_is_one`, `count_is_one`); bytes are complete exactly if no interchange is open at their end (`complete_is_one`);
//! - a header can be completed exactly if it may begin (`begun_is_one`), an interchange is open exactly if its end isn't known
//!   (`open_is_one`), and a file lacks nothing exactly if it is closed and fit (`lack_is_one`);
//! - files that stand alone are read each alone, in a row (`files_are_read`);
//! - no file that is closed and fit touches its neighbours (`files_stand_apart`), nor one that keeps to itself
//!   (`files_that_keep_to_themselves_stand_apart`);
//! - a file that is read part by part keeps to itself where what is held of it at its end does (`parts_of_a_file_keep_on`);
//! - its own terminator as its last byte closes a file (`its_terminator_closes_a_file`), and sixteen spaces keep a header from beginning
//!   in it (`spaces_end_a_file`).
//!
//! Source: X12.5, interchange control header and trailer, and interchange. That files are gathered is own.
//!
//! Tests: `.ci/gather`.
#![tactic(auto)]

mod apart_laws;
mod cause;
mod closing;
mod elements;
mod fault;
mod gather;
mod laws;
mod lead;
mod trailer;

pub use apart_laws::{
    files_stand_apart, files_that_keep_to_themselves_stand_apart, its_terminator_closes_a_file,
    parts_of_a_file_keep_on, spaces_end_a_file,
};
pub use cause::{Cause, ElementLength, cause_of};
pub use closing::MOST_BEHIND;
pub use fault::GatherFault;
pub use gather::{End, Gathered, Separators, Taken, gather_file};
pub use laws::{
    alone_is_one, begun_is_one, complete_is_one, count_is_one, files_are_read, goes_in_is_one,
    lack_is_one, open_is_one,
};
