use hub_kinds::{GroupCode, Items, SetCode};
use std::alloc::Global;

/// What is kept of the answer to a set (999 guide, IK5).
#[derive(Debug, Drop)]
pub struct SetNotes {
    /// Its codes (IK502 to IK506).
    pub codes: Items<SetCode>,
    /// How many faults are reported of it.
    pub faults: u64,
}

/// What is kept of the answer to a group (999 guide, AK9) and to its sets, in their order.
#[derive(Debug, Drop)]
pub struct GroupNotes {
    /// Its codes (AK905 to AK909).
    pub codes: Items<GroupCode>,
    /// What is kept of the answers to its sets.
    pub sets: Items<SetNotes>,
}

impl GroupNotes {
    ghost use Rattle.std.specs.Prelude.{◌≡◌};
    ghost use Rattle.track_table.specs.Notes.{no_notes};

    /// The notes of a group to which nothing is answered.
    pub fn none(alloc: Global) -> GroupNotes
        ensures { result ≡ no_notes }
    {
        GroupNotes {
            codes: Items::from_vec(Vec::new(alloc)),
            sets: Items::from_vec(Vec::new(alloc)),
        }
    }
}

/// What is kept of the answers to an interchange, beside the standings of its groups (X12.5; 999 guide).
#[derive(Debug, Drop)]
pub struct Notes {
    /// What is kept of the answers to its groups, in their order; nothing of one that is refused.
    pub groups: Items<GroupNotes>,
    /// The partner that it is acknowledged to, by its place in the setup.
    pub recipient: Option<usize>,
    /// Whether it is acknowledged by 999s.
    pub has_reports: bool,
}
