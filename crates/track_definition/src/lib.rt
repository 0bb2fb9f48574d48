//! Where each set of a night is: the definition of the table that `nighthub_track` gives, in the words of the definition of a night.
//! `table_of text setup documents` is a function, and it computes.
//!
//! Each file of `specs/` is one idea: the names of the fields (`Columns`), the byte that keeps a set from a receiver (`Hindrance`), the
//! fields of a row (`Cells`), the rows and the table (`Rows`).
//!
//! Source: RFC 4180; X12.5, interchange; X12.6, functional group and transaction set; 999 guide, AK9 and IK5. Which rows there are is own.
#![tactic(auto)]
