ghost use Rattle.std.specs.Prelude.{◌≡◌, ◌++◌, IfOk, OnOk, map};
ghost use Rattle.guide_tree.specs.Codes.{Knows};
ghost use Rattle.guide_widening.specs.NodeDifferences as nodes;
ghost use Rattle.guide_widening.specs.Keys.{condition_key};
ghost use Rattle.guide_widening.specs.Changes as changes;
ghost use Rattle.guide_widening.specs.Changes.{items_differences, said};
ghost use Rattle.guide_widening.specs.declared.difference.Change.TheVariants.{Narrower, Wider};
ghost use Rattle.guide_widening.specs.declared.difference.Key.TheVariants as key;
ghost use Rattle.guide_widening.specs.declared.difference.Value.TheVariants as value;

use crate::difference::{At, Change, Difference, Key, Value};
use crate::keys::{condition_key, has_key, insert_key};
use crate::push::push;
use crate::written::condition_written;
use guide_tree::Condition;
use hub_kinds::NoMemory;
use std::alloc::Global;
use std::collections::BTreeSet;

/// The keys of relational conditions.
fn keys_of(alloc: Global, conditions: &[Condition]) -> Result<BTreeSet<Vec<u64>>, NoMemory>
    ensures { IfOk result (λ known. Knows known (map condition_key conditions.now)) }
{
    let mut known = BTreeSet::new(alloc);
    for i in 0..conditions.len() {
        let key = condition_key(alloc, &conditions[i])?;
        insert_key(&mut known, key)?;
    }
    Ok(known)
}

/// Whether `condition` is one of those with the keys `known`.
fn is_in(
    alloc: Global,
    conditions: &[Condition],
    known: &BTreeSet<Vec<u64>>,
    condition: &Condition,
) -> Result<bool, NoMemory>
    requires { Knows known.now (map condition_key conditions.now) }
    ensures { IfOk result (λ is. is ≡ nodes.is_condition_in conditions.now condition.now) }
{
    let key = condition_key(alloc, condition)?;
    Ok(has_key(known, key.as_slice()))
}

/// Adds `condition`, as new, if `old` doesn't have it.
fn push_new(
    alloc: Global,
    found: &mut Vec<Difference>,
    at: At,
    old: &[Condition],
    known: &BTreeSet<Vec<u64>>,
    condition: &Condition,
) -> Result<(), NoMemory>
    requires { Knows known.now (map condition_key old.now) }
    ensures { OnOk result (found.new.items ≡ found.old.items
        ++ said at key.Condition (changes.unless (nodes.is_condition_in old.now condition.now) Narrower)
        value.Nothing (nodes.condition_value condition.now)) }
{
    if is_in(alloc, old, known, condition)? {
        return Ok(());
    }
    let after = condition_written(alloc, condition)?;
    push(
        found,
        at,
        Key::Condition,
        Some(Change::Narrower),
        Value::Nothing,
        after,
    )
}

/// Adds `condition`, as gone, if `new` doesn't have it.
fn push_gone(
    alloc: Global,
    found: &mut Vec<Difference>,
    at: At,
    new: &[Condition],
    known: &BTreeSet<Vec<u64>>,
    condition: &Condition,
) -> Result<(), NoMemory>
    requires { Knows known.now (map condition_key new.now) }
    ensures { OnOk result (found.new.items ≡ found.old.items
        ++ said at key.Condition (changes.unless (nodes.is_condition_in new.now condition.now) Wider)
        (nodes.condition_value condition.now) value.Nothing) }
{
    if is_in(alloc, new, known, condition)? {
        return Ok(());
    }
    let before = condition_written(alloc, condition)?;
    push(
        found,
        at,
        Key::Condition,
        Some(Change::Wider),
        before,
        Value::Nothing,
    )
}

fn push_each_new(
    alloc: Global,
    found: &mut Vec<Difference>,
    at: At,
    old: &[Condition],
    new: &[Condition],
) -> Result<(), NoMemory>
    ensures { OnOk result (found.new.items ≡ found.old.items
        ++ items_differences (nodes.is_condition_in old.now) at key.Condition Narrower (λ c. value.Nothing) nodes.condition_value new.now) }
{
    let known = keys_of(alloc, old)?;
    for i in 0..new.len() {
        push_new(alloc, found, at, old, &known, &new[i])?;
    }
    Ok(())
}

fn push_each_gone(
    alloc: Global,
    found: &mut Vec<Difference>,
    at: At,
    old: &[Condition],
    new: &[Condition],
) -> Result<(), NoMemory>
    ensures { OnOk result (found.new.items ≡ found.old.items
        ++ items_differences (nodes.is_condition_in new.now) at key.Condition Wider nodes.condition_value (λ c. value.Nothing) old.now) }
{
    let known = keys_of(alloc, new)?;
    for i in 0..old.len() {
        push_gone(alloc, found, at, new, &known, &old[i])?;
    }
    Ok(())
}

/// Adds what the relational conditions of two slots say otherwise.
pub(crate) fn push_conditions(
    alloc: Global,
    found: &mut Vec<Difference>,
    at: At,
    old: &[Condition],
    new: &[Condition],
) -> Result<(), NoMemory>
    ensures { OnOk result (found.new.items ≡ found.old.items ++ nodes.condition_differences at old.now new.now) }
{
    push_each_new(alloc, found, at, old, new)?;
    push_each_gone(alloc, found, at, old, new)
}
