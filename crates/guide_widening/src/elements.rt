ghost use Rattle.std.specs.Prelude.{◌≡◌, ◌++◌, OnOk, option_map};
ghost use Rattle.guide_widening.specs.RowDifferences as rows;

use crate::changes::used_change;
use crate::components::push_composite;
use crate::difference::{At, Change, Difference, Key, Presence, Value};
use crate::push::push;
use crate::rows::{push_repeat, push_row};
use crate::values::{element_at, element_presence, fits_empty};
use guide_tree::Element;
use hub_kinds::NoMemory;
use std::alloc::Global;

fn push_element(
    alloc: Global,
    found: &mut Vec<Difference>,
    at: At,
    old: &Element,
    new: &Element,
) -> Result<(), NoMemory>
    ensures { OnOk result (found.new.items ≡ found.old.items ++ rows.element_differences at old.now new.now) }
{
    match (old, new) {
        (Element::Simple(old, repeat), Element::Simple(new, often)) => {
            push_repeat(found, at, *repeat, *often)?;
            push_row(alloc, found, at, old, new)
        }
        (Element::Composite(old), Element::Composite(new)) => {
            push_composite(alloc, found, at, old, new)
        }
        (Element::Simple(_, _), Element::Composite(new)) => {
            let after = Value::Number(new.components.as_slice().len() as u64);
            push(
                found,
                at,
                Key::Components,
                Some(Change::Other),
                Value::Number(0),
                after,
            )
        }
        (Element::Composite(old), Element::Simple(_, _)) => {
            let before = Value::Number(old.components.as_slice().len() as u64);
            push(
                found,
                at,
                Key::Components,
                Some(Change::Other),
                before,
                Value::Number(0),
            )
        }
        (Element::NotUsed(_), Element::NotUsed(_)) => Ok(()),
        (Element::NotUsed(_), _) => {
            let change = used_change(fits_empty(new));
            let after = Value::Presence(element_presence(new));
            push(
                found,
                at,
                Key::Presence,
                change,
                Value::Presence(Presence::NotUsed),
                after,
            )
        }
        (_, Element::NotUsed(_)) => {
            let before = Value::Presence(element_presence(old));
            let after = Value::Presence(Presence::NotUsed);
            push(
                found,
                at,
                Key::Presence,
                Some(Change::Narrower),
                before,
                after,
            )
        }
    }
}

/// Adds what two rows at one place say otherwise, one of which may be absent.
fn push_pair(
    alloc: Global,
    found: &mut Vec<Difference>,
    at: At,
    old: Option<&Element>,
    new: Option<&Element>,
) -> Result<(), NoMemory>
    ensures { OnOk result (found.new.items ≡ found.old.items
        ++ rows.element_pair at (option_map (λ e. e.now) old.entry) (option_map (λ e. e.now) new.entry)) }
{
    match (old, new) {
        (None, None) => Ok(()),
        (Some(old), Some(new)) => push_element(alloc, found, at, old, new),
        (None, Some(new)) => {
            let change = used_change(fits_empty(new));
            let after = Value::Presence(element_presence(new));
            push(found, at, Key::Presence, change, Value::Nothing, after)
        }
        (Some(old), None) => {
            let before = Value::Presence(element_presence(old));
            push(
                found,
                at,
                Key::Presence,
                Some(Change::Narrower),
                before,
                Value::Nothing,
            )
        }
    }
}

/// Adds what the element rows of two segments say otherwise.
pub(crate) fn push_elements(
    alloc: Global,
    found: &mut Vec<Difference>,
    at: At,
    old: &[Element],
    new: &[Element],
) -> Result<(), NoMemory>
    ensures { OnOk result (found.new.items ≡ found.old.items ++ rows.elements_differences at 1 old.now new.now) }
{
    for i in 0..old.len().max(new.len()) {
        push_pair(
            alloc,
            found,
            element_at(at, i as u64 + 1),
            old.get(i),
            new.get(i),
        )?;
    }
    Ok(())
}
