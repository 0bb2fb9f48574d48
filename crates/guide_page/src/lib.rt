//! The page of a guide, for a browser: its segments in their order, each segment's elements and conditions, levels, dependencies, what is
//! tolerated, a sample, and what the 999 says of samples that break a rule. Names of segments, elements and codes, and notes, are beside
//! these if there are any.
//!
//! Proved:
//! - the page is the text of the definition on the names, the guide, the sample and the answers (`append_page`, `page_text`);
//! - each text of the guide, of the names, of the sample and of an answer is in it as a text (`html_text`), so none puts markup into it.
//!
//! It takes as much work as the page has bytes, and a search in the names for each id, number and code.
//!
//! Source: own; X12.6, segments, data elements and relational conditions.
//!
//! Tests: `.ci/samples`.
#![tactic(auto)]

mod conditions;
mod elements;
mod fixed;
mod named;
mod nodes;
mod page;
mod rules;
mod sections;
mod tags;
mod words;

pub use page::{Answer, append_page};
