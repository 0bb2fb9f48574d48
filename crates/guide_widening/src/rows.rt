ghost use Rattle.std.specs.Prelude.{◌≡◌, ◌++◌, OnOk};
ghost use Rattle.guide_widening.specs.RowDifferences as rows;

use crate::changes::{asked_change, least_change, most_change, requirement_change, type_change};
use crate::codes::push_codes;
use crate::difference::{At, Difference, Key, Value};
use crate::push::push;
use crate::values::required;
use guide_tree::{Requirement, SimpleRow};
use hub_kinds::NoMemory;
use std::alloc::Global;

/// Adds how a requirement differs from `old` to `new`.
pub(crate) fn push_requirement(
    found: &mut Vec<Difference>,
    at: At,
    old: Requirement,
    new: Requirement,
) -> Result<(), NoMemory>
    ensures { OnOk result (found.new.items ≡ found.old.items ++ rows.requirement_differences at old new) }
{
    let change = requirement_change(old, new);
    let before = Value::Presence(required(old));
    push(
        found,
        at,
        Key::Presence,
        change,
        before,
        Value::Presence(required(new)),
    )
}

/// Adds how often an element may occur, if that differs from `old` to `new`.
pub(crate) fn push_repeat(
    found: &mut Vec<Difference>,
    at: At,
    old: u32,
    new: u32,
) -> Result<(), NoMemory>
    ensures { OnOk result (found.new.items ≡ found.old.items ++ rows.repeat_differences at old new) }
{
    let before = Value::Number(u64::from(old));
    push(
        found,
        at,
        Key::Repeat,
        most_change(old, new),
        before,
        Value::Number(u64::from(new)),
    )
}

fn push_form(
    found: &mut Vec<Difference>,
    at: At,
    old: &SimpleRow,
    new: &SimpleRow,
) -> Result<(), NoMemory>
    ensures { OnOk result (found.new.items ≡ found.old.items ++ rows.form_differences at old.now new.now) }
{
    push_requirement(found, at, old.requirement, new.requirement)?;
    let change = type_change(old.data_type, new.data_type);
    push(
        found,
        at,
        Key::Type,
        change,
        Value::Type(old.data_type),
        Value::Type(new.data_type),
    )
}

fn push_lengths(
    found: &mut Vec<Difference>,
    at: At,
    old: &SimpleRow,
    new: &SimpleRow,
) -> Result<(), NoMemory>
    ensures { OnOk result (found.new.items ≡ found.old.items ++ rows.length_differences at old.now new.now) }
{
    let least = least_change(old.min, new.min);
    let before = Value::Number(u64::from(old.min));
    push(
        found,
        at,
        Key::LeastLength,
        least,
        before,
        Value::Number(u64::from(new.min)),
    )?;
    let most = most_change(old.max, new.max);
    let before = Value::Number(u64::from(old.max));
    push(
        found,
        at,
        Key::GreatestLength,
        most,
        before,
        Value::Number(u64::from(new.max)),
    )
}

/// Adds what two rows of simple elements or components say otherwise.
pub(crate) fn push_row(
    alloc: Global,
    found: &mut Vec<Difference>,
    at: At,
    old: &SimpleRow,
    new: &SimpleRow,
) -> Result<(), NoMemory>
    ensures { OnOk result (found.new.items ≡ found.old.items ++ rows.row_differences at old.now new.now) }
{
    push_form(found, at, old, new)?;
    push_lengths(found, at, old, new)?;
    let wide = asked_change(new.wide, old.wide);
    push(
        found,
        at,
        Key::Wide,
        wide,
        Value::Flag(old.wide),
        Value::Flag(new.wide),
    )?;
    push_codes(alloc, found, at, &old.codes, &new.codes)
}
