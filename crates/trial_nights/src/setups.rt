//! The setup of two partners, by the house guides.
use super::setup::built::{NoSetup, built};
use partner_setup::Setup;
use std::alloc::Global;
use trial_guides::house::{H850, H856};

/// The setup file.
const SETUP: &str = r#"[hub]
qualifier = "ZZ"
id = "HUB"
code = "HUB"
usage = "P"

[[partner]]
name = "ACME"
qualifier = "01"
id = "ACME"
code = "ACME"
element = "*"
component = ">"
repetition = "^"
terminator = "~"
cap = 2
guides = ["H850", "H856"]

[[partner]]
name = "BOLT"
qualifier = "ZZ"
id = "BOLT"
code = "BOLT"
element = "|"
component = ":"
repetition = "^"
terminator = "!"
cap = 1
guides = ["H850"]

[[route]]
code = "ACME"
to = "ACME"

[[route]]
code = "BOLT"
to = "BOLT"
"#;

/// A counters file that has a row for ACME alone.
const COUNTERS: &str = r#"version = 2
[[counter]]
partner = "ACME"
interchange = 1
group = 1
set = 1
"#;

/// The setup of the two partners.
pub fn two_partners(alloc: Global) -> Result<Setup, NoSetup> {
    built(alloc, SETUP.as_bytes(), COUNTERS.as_bytes(), [H850, H856])
}
