ghost use Rattle.std.specs.Prelude.{◌≡◌, ◌++◌, [], ◌∷◌, List, IfOk, OnOk};
ghost use Rattle.std.specs.List.{list_any};
ghost use Rattle.ack_999.specs.Group.{are_same_number};
ghost use Rattle.env_index.specs.Words.{GroupEntry};
ghost use Rattle.set_answers.specs.Answers.{group_number};
ghost use Rattle.set_answers.specs.Known.{HasNumbersOf};

use env_index::GroupEnvelope;
use hub_kinds::{MOST_CONTROL_DIGITS, NoMemory, read_number};
use std::collections::BTreeSet;

/// GS06 as a number.
pub(crate) fn group_number(group: &GroupEnvelope<'_, '_>) -> Option<u64>
    ensures { result ≡ group_number group.now }
{
    read_number(group.header().element(6), MOST_CONTROL_DIGITS)
}

/// Adds the number of a group to those of the groups before it; answers whether it was there.
pub(crate) fn add_number(numbers: &mut BTreeSet<u64>, number: Option<u64>) -> Result<bool, NoMemory>
    ensures earlier { IfOk result (λ earlier. (before : List GroupEntry) → HasNumbersOf numbers.old before
        → earlier ≡ list_any (λ g. are_same_number number (group_number g)) before) }
    ensures known { OnOk result ((before : List GroupEntry) (group : GroupEntry) → group_number group ≡ number
        → HasNumbersOf numbers.old before → HasNumbersOf numbers.new (before ++ group ∷ [])) }
{
    match number {
        None => Ok(false),
        Some(number) => Ok(!numbers.insert(number)?),
    }
}
