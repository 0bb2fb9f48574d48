use hub_kinds::{Counters, Items, Text};
use x12_bytes::Delims;

/// A partner of a setup.
#[derive(Debug, Drop)]
pub struct Partner {
    /// Its name in files and reports.
    pub name: Text,
    /// Its id qualifier, ISA05 and ISA07.
    pub qualifier: Text,
    /// Its id, ISA06 and ISA08.
    pub id: Text,
    /// Its application code, GS02 and GS03.
    pub code: Text,
    /// What it is written to with.
    pub delims: Delims,
    /// How many sets an interchange that is delivered to it holds at most, 1 to 99,999.
    pub cap: u32,
    /// Its next numbers, 1 to 999,999,999 each.
    pub counters: Counters,
    /// Its guides, by their places in the setup's.
    pub guides: Items<usize>,
}

/// Where sets for an application code go.
#[derive(Debug, Drop)]
pub struct Route {
    /// The application code, GS03.
    pub code: Text,
    /// The receivers, in the route's order, by their places among the setup's partners; none appears twice.
    pub to: Items<usize>,
}
