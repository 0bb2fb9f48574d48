ghost use Rattle.std.specs.Prelude.{◌≡◌, ◌++◌, IfOk, OnOk, map};
ghost use Rattle.guide_tree.specs.Codes.{Knows};
ghost use Rattle.guide_widening.specs.Changes as changes;
ghost use Rattle.guide_widening.specs.Changes.{items_differences, said};
ghost use Rattle.guide_widening.specs.Differences as guides;
ghost use Rattle.guide_widening.specs.Keys.{pair_key};
ghost use Rattle.guide_widening.specs.NodeDifferences as nodes;
ghost use Rattle.guide_widening.specs.declared.difference.Change.TheVariants.{Narrower, Wider};
ghost use Rattle.guide_widening.specs.declared.difference.Key.TheVariants as key;
ghost use Rattle.guide_widening.specs.declared.difference.Value.TheVariants as value;

use crate::changes::asked_change;
use crate::difference::{Change, Difference, Key, Value};
use crate::keys::{has_key, insert_key, pair_key};
use crate::push::push;
use crate::values::at_node;
use crate::written::pair_written;
use guide_tree::{HlPair, HlRule};
use hub_kinds::NoMemory;
use std::alloc::Global;
use std::collections::BTreeSet;

/// The keys of pairs of levels.
fn keys_of(alloc: Global, pairs: &[HlPair]) -> Result<BTreeSet<Vec<u64>>, NoMemory>
    ensures { IfOk result (λ known. Knows known (map pair_key pairs.now)) }
{
    let mut known = BTreeSet::new(alloc);
    for i in 0..pairs.len() {
        let key = pair_key(alloc, &pairs[i])?;
        insert_key(&mut known, key)?;
    }
    Ok(known)
}

/// Whether `pair` is one of those with the keys `known`.
fn is_in(
    alloc: Global,
    pairs: &[HlPair],
    known: &BTreeSet<Vec<u64>>,
    pair: &HlPair,
) -> Result<bool, NoMemory>
    requires { Knows known.now (map pair_key pairs.now) }
    ensures { IfOk result (λ is. is ≡ guides.is_pair_in pairs.now pair.now) }
{
    let key = pair_key(alloc, pair)?;
    Ok(has_key(known, key.as_slice()))
}

/// Adds `pair`, as gone, if `new` doesn't have it.
fn push_gone(
    alloc: Global,
    found: &mut Vec<Difference>,
    new: &[HlPair],
    known: &BTreeSet<Vec<u64>>,
    pair: &HlPair,
) -> Result<(), NoMemory>
    requires { Knows known.now (map pair_key new.now) }
    ensures { OnOk result (found.new.items ≡ found.old.items
        ++ said (nodes.at_node 0) key.Pair (changes.unless (guides.is_pair_in new.now pair.now) Narrower)
        (guides.pair_value pair.now) value.Nothing) }
{
    if is_in(alloc, new, known, pair)? {
        return Ok(());
    }
    let before = pair_written(alloc, pair)?;
    push(
        found,
        at_node(0),
        Key::Pair,
        Some(Change::Narrower),
        before,
        Value::Nothing,
    )
}

/// Adds `pair`, as new, if `old` doesn't have it.
fn push_new(
    alloc: Global,
    found: &mut Vec<Difference>,
    old: &[HlPair],
    known: &BTreeSet<Vec<u64>>,
    pair: &HlPair,
) -> Result<(), NoMemory>
    requires { Knows known.now (map pair_key old.now) }
    ensures { OnOk result (found.new.items ≡ found.old.items
        ++ said (nodes.at_node 0) key.Pair (changes.unless (guides.is_pair_in old.now pair.now) Wider)
        value.Nothing (guides.pair_value pair.now)) }
{
    if is_in(alloc, old, known, pair)? {
        return Ok(());
    }
    let after = pair_written(alloc, pair)?;
    push(
        found,
        at_node(0),
        Key::Pair,
        Some(Change::Wider),
        Value::Nothing,
        after,
    )
}

fn push_each_gone(
    alloc: Global,
    found: &mut Vec<Difference>,
    old: &[HlPair],
    new: &[HlPair],
) -> Result<(), NoMemory>
    ensures { OnOk result (found.new.items ≡ found.old.items
        ++ items_differences (guides.is_pair_in new.now) (nodes.at_node 0) key.Pair Narrower guides.pair_value
        (λ p. value.Nothing) old.now) }
{
    let known = keys_of(alloc, new)?;
    for i in 0..old.len() {
        push_gone(alloc, found, new, &known, &old[i])?;
    }
    Ok(())
}

fn push_each_new(
    alloc: Global,
    found: &mut Vec<Difference>,
    old: &[HlPair],
    new: &[HlPair],
) -> Result<(), NoMemory>
    ensures { OnOk result (found.new.items ≡ found.old.items
        ++ items_differences (guides.is_pair_in old.now) (nodes.at_node 0) key.Pair Wider (λ p. value.Nothing) guides.pair_value new.now) }
{
    let known = keys_of(alloc, old)?;
    for i in 0..new.len() {
        push_new(alloc, found, old, &known, &new[i])?;
    }
    Ok(())
}

fn push_pairs(
    alloc: Global,
    found: &mut Vec<Difference>,
    old: &[HlPair],
    new: &[HlPair],
) -> Result<(), NoMemory>
    ensures { OnOk result (found.new.items ≡ found.old.items ++ guides.pair_differences old.now new.now) }
{
    push_each_gone(alloc, found, old, new)?;
    push_each_new(alloc, found, old, new)
}

/// Adds what the rules of two guides for HL segments say otherwise.
pub(crate) fn push_hierarchy(
    alloc: Global,
    found: &mut Vec<Difference>,
    old: &Option<HlRule>,
    new: &Option<HlRule>,
) -> Result<(), NoMemory>
    ensures { OnOk result (found.new.items ≡ found.old.items ++ guides.hierarchy_differences old.now new.now) }
{
    let (change, before, after) = match (old, new) {
        (None, None) => return Ok(()),
        (None, Some(_)) => (Change::Narrower, false, true),
        (Some(_), None) => (Change::Wider, true, false),
        (Some(old), Some(new)) => {
            let asked = asked_change(old.sequential, new.sequential);
            let before = Value::Flag(old.sequential);
            let after = Value::Flag(new.sequential);
            push(found, at_node(0), Key::Sequential, asked, before, after)?;
            return push_pairs(alloc, found, old.pairs.as_slice(), new.pairs.as_slice());
        }
    };
    let before = Value::Flag(before);
    push(
        found,
        at_node(0),
        Key::Hierarchy,
        Some(change),
        before,
        Value::Flag(after),
    )
}
