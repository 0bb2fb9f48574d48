ghost use Rattle.std.specs.Prelude.{◌≡◌, ◌++◌, OnOk, option_map};
ghost use Rattle.guide_widening.specs.RowDifferences as rows;

use crate::changes::used_change;
use crate::difference::{At, Change, Difference, Key, Presence, Value};
use crate::push::push;
use crate::rows::{push_repeat, push_requirement, push_row};
use crate::values::{component_at, component_presence, fits_no_component, required};
use guide_tree::{Component, CompositeRow};
use hub_kinds::NoMemory;
use std::alloc::Global;

fn push_component(
    alloc: Global,
    found: &mut Vec<Difference>,
    at: At,
    old: &Component,
    new: &Component,
) -> Result<(), NoMemory>
    ensures { OnOk result (found.new.items ≡ found.old.items ++ rows.component_differences at old.now new.now) }
{
    let (change, before, after) = match (old, new) {
        (Component::NotUsed(_), Component::NotUsed(_)) => return Ok(()),
        (Component::Simple(old), Component::Simple(new)) => {
            return push_row(alloc, found, at, old, new);
        }
        (Component::NotUsed(_), Component::Simple(row)) => (
            used_change(fits_no_component(new)),
            Presence::NotUsed,
            required(row.requirement),
        ),
        (Component::Simple(row), Component::NotUsed(_)) => (
            Some(Change::Narrower),
            required(row.requirement),
            Presence::NotUsed,
        ),
    };
    push(
        found,
        at,
        Key::Presence,
        change,
        Value::Presence(before),
        Value::Presence(after),
    )
}

/// Adds what two rows at one place say otherwise, one of which may be absent.
fn push_pair(
    alloc: Global,
    found: &mut Vec<Difference>,
    at: At,
    old: Option<&Component>,
    new: Option<&Component>,
) -> Result<(), NoMemory>
    ensures { OnOk result (found.new.items ≡ found.old.items
        ++ rows.component_pair at (option_map (λ c. c.now) old.entry) (option_map (λ c. c.now) new.entry)) }
{
    match (old, new) {
        (None, None) => Ok(()),
        (Some(old), Some(new)) => push_component(alloc, found, at, old, new),
        (None, Some(new)) => {
            let change = used_change(fits_no_component(new));
            let after = Value::Presence(component_presence(new));
            push(found, at, Key::Presence, change, Value::Nothing, after)
        }
        (Some(old), None) => {
            let before = Value::Presence(component_presence(old));
            push(
                found,
                at,
                Key::Presence,
                Some(Change::Narrower),
                before,
                Value::Nothing,
            )
        }
    }
}

fn push_components(
    alloc: Global,
    found: &mut Vec<Difference>,
    at: At,
    old: &[Component],
    new: &[Component],
) -> Result<(), NoMemory>
    ensures { OnOk result (found.new.items ≡ found.old.items ++ rows.components_differences at 1 old.now new.now) }
{
    for i in 0..old.len().max(new.len()) {
        push_pair(
            alloc,
            found,
            component_at(at, i as u64 + 1),
            old.get(i),
            new.get(i),
        )?;
    }
    Ok(())
}

/// Adds what two rows of composite elements say otherwise.
pub(crate) fn push_composite(
    alloc: Global,
    found: &mut Vec<Difference>,
    at: At,
    old: &CompositeRow,
    new: &CompositeRow,
) -> Result<(), NoMemory>
    ensures { OnOk result (found.new.items ≡ found.old.items ++ rows.composite_differences at old.now new.now) }
{
    push_requirement(found, at, old.requirement, new.requirement)?;
    push_repeat(found, at, old.repeat, new.repeat)?;
    push_components(
        alloc,
        found,
        at,
        old.components.as_slice(),
        new.components.as_slice(),
    )
}
