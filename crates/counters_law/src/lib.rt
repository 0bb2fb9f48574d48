//! How control numbers continue from night to night: the counters file that a night leaves is one that the next night takes. A theorem
//! alone, beside the program's chain: the call does nothing.
//!
//! Proved: for each setup that `Setup::build` gives, the text that `Setup::counters_text` writes of next counters is a TOML table,
//! `read_counters` reads of it just these counters, one row for each partner, and `Setup::build` refuses none of these rows
//! (`counters_go_on`).
//!
//! Source: X12.5, interchange control number; X12.6, group and set control numbers. That they continue from night to night is own.
#![tactic(auto)]

mod laws;

pub use laws::counters_go_on;
