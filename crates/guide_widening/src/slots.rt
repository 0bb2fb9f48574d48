ghost use Rattle.std.specs.Prelude.{◌≡◌, ◌++◌, OnOk};
ghost use Rattle.guide_widening.specs.NodeDifferences as nodes;

use crate::changes::{label_change, least_change, most_change};
use crate::conditions::push_conditions;
use crate::difference::{At, Difference, Key, Value};
use crate::elements::push_elements;
use crate::picks::push_picks;
use crate::push::push;
use crate::values::{at_node, text_of};
use guide_tree::{Loop, Slot};
use hub_kinds::NoMemory;
use std::alloc::Global;

/// The least and the greatest use of a segment or a loop.
#[derive(Clone, Copy, Debug, PartialEq, Eq)]
pub struct Uses {
    pub min: u32,
    pub max: u32,
}

fn push_uses(found: &mut Vec<Difference>, at: At, old: Uses, new: Uses) -> Result<(), NoMemory>
    ensures { OnOk result (found.new.items ≡ found.old.items ++ nodes.use_differences at old.min old.max new.min new.max) }
{
    let least = least_change(old.min, new.min);
    let before = Value::Number(u64::from(old.min));
    push(
        found,
        at,
        Key::LeastUse,
        least,
        before,
        Value::Number(u64::from(new.min)),
    )?;
    let most = most_change(old.max, new.max);
    let before = Value::Number(u64::from(old.max));
    push(
        found,
        at,
        Key::GreatestUse,
        most,
        before,
        Value::Number(u64::from(new.max)),
    )
}

fn push_slot_uses(found: &mut Vec<Difference>, old: &Slot, new: &Slot) -> Result<(), NoMemory>
    ensures { OnOk result (found.new.items ≡ found.old.items
        ++ nodes.use_differences (nodes.at_node new.now.number) old.now.min old.now.max new.now.min new.now.max) }
{
    let before = Uses {
        min: old.min,
        max: old.max,
    };
    let after = Uses {
        min: new.min,
        max: new.max,
    };
    push_uses(found, at_node(new.number), before, after)
}

/// Adds what two loops say otherwise of their use.
pub(crate) fn push_loop(found: &mut Vec<Difference>, old: &Loop, new: &Loop) -> Result<(), NoMemory>
    ensures { OnOk result (found.new.items ≡ found.old.items ++ nodes.loop_differences old.now new.now) }
{
    let before = Uses {
        min: old.min,
        max: old.max,
    };
    let after = Uses {
        min: new.min,
        max: new.max,
    };
    push_uses(found, at_node(new.number), before, after)
}

/// Adds what two segments say otherwise.
pub(crate) fn push_slot(
    alloc: Global,
    found: &mut Vec<Difference>,
    old: &Slot,
    new: &Slot,
) -> Result<(), NoMemory>
    ensures { OnOk result (found.new.items ≡ found.old.items ++ nodes.slot_differences old.now new.now) }
{
    let at = at_node(new.number);
    let label = label_change(&old.label, &new.label);
    let before = text_of(alloc, &old.label)?;
    let after = text_of(alloc, &new.label)?;
    push(found, at, Key::Label, label, before, after)?;
    push_slot_uses(found, old, new)?;
    push_picks(alloc, found, at, old.picks.as_slice(), new.picks.as_slice())?;
    push_elements(
        alloc,
        found,
        at,
        old.elements.as_slice(),
        new.elements.as_slice(),
    )?;
    push_conditions(
        alloc,
        found,
        at,
        old.conditions.as_slice(),
        new.conditions.as_slice(),
    )
}
