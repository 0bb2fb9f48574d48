//! Keys in their order: whether one is among them costs a search.
ghost use Rattle.std.specs.Prelude.{◌≡◌, ◌∷◌, [], ◌++◌, ℕ, List, IfOk, OnOk};
ghost use Rattle.guide_tree.specs.Codes.{has, Knows};
ghost use Rattle.guide_widening.specs.Keys as keys;
ghost use Rattle.guide_widening.specs.Nodes.{relation_number};

use guide_tree::{Condition, Dependency, DependencyKind, HlPair, Relation};
use hub_kinds::{NoMemory, Text};
use std::alloc::Global;
use std::collections::BTreeSet;

/// Adds `key` to `known`.
pub(crate) fn insert_key(known: &mut BTreeSet<Vec<u64>>, key: Vec<u64>) -> Result<(), NoMemory>
    ensures { OnOk result ((all : List (List ℕ)) → Knows known.old all → Knows known.new (all ++ key.items ∷ [])) }
{
    known.insert(key)?;
    Ok(())
}

/// Whether `known` has `key`.
pub(crate) fn has_key(known: &BTreeSet<Vec<u64>>, key: &[u64]) -> bool
    ensures { result ≡ has known.now key.now }
{
    known.contains(key)
}

fn append_numbers(key: &mut Vec<u64>, numbers: &[u32]) -> Result<(), NoMemory>
    ensures { OnOk result (key.new.items ≡ key.old.items ++ numbers.now) }
{
    for i in 0..numbers.len() {
        key.push(u64::from(numbers[i]))?;
    }
    Ok(())
}

fn append_bytes(key: &mut Vec<u64>, bytes: &[u8]) -> Result<(), NoMemory>
    ensures { OnOk result (key.new.items ≡ key.old.items ++ bytes.now) }
{
    for i in 0..bytes.len() {
        key.push(u64::from(bytes[i]))?;
    }
    Ok(())
}

fn append_measured(key: &mut Vec<u64>, text: &[u8]) -> Result<(), NoMemory>
    ensures { OnOk result (key.new.items ≡ key.old.items ++ keys.measured text.now) }
{
    key.push(text.len() as u64)?;
    append_bytes(key, text)
}

fn relation_number(relation: Relation) -> u64
    ensures { result ≡ relation_number relation }
{
    match relation {
        Relation::Paired => 0,
        Relation::Required => 1,
        Relation::Exclusion => 2,
        Relation::Conditional => 3,
        Relation::ListConditional => 4,
    }
}

/// The key of a relational condition.
pub(crate) fn condition_key(alloc: Global, condition: &Condition) -> Result<Vec<u64>, NoMemory>
    ensures { IfOk result (λ key. key.items ≡ keys.condition_key condition.now) }
{
    let mut key = Vec::new(alloc);
    key.push(relation_number(condition.relation))?;
    append_numbers(&mut key, condition.positions.as_slice())?;
    Ok(key)
}

fn append_level(key: &mut Vec<u64>, level: &Option<Text>) -> Result<(), NoMemory>
    ensures { OnOk result (key.new.items ≡ key.old.items ++ keys.level_key level.now) }
{
    match level {
        None => {
            key.push(0)?;
            Ok(())
        }
        Some(level) => {
            key.push(1)?;
            append_measured(key, level.as_slice())
        }
    }
}

/// The key of a pair of levels.
pub(crate) fn pair_key(alloc: Global, pair: &HlPair) -> Result<Vec<u64>, NoMemory>
    ensures { IfOk result (λ key. key.items ≡ keys.pair_key pair.now) }
{
    let mut key = Vec::new(alloc);
    append_level(&mut key, &pair.parent)?;
    append_bytes(&mut key, pair.child.as_slice())?;
    Ok(key)
}

fn kind_number(kind: DependencyKind) -> u64
    ensures { result ≡ keys.kind_number kind }
{
    match kind {
        DependencyKind::Need => 0,
        DependencyKind::Ban => 1,
    }
}

/// The key of a dependency with one of its codes.
pub(crate) fn dependency_key(
    alloc: Global,
    depend: &Dependency,
    code: &[u8],
) -> Result<Vec<u64>, NoMemory>
    ensures { IfOk result (λ key. key.items ≡ keys.dependency_key depend.now code.now) }
{
    let mut key = Vec::new(alloc);
    key.push(kind_number(depend.kind))?;
    key.push(u64::from(depend.at))?;
    key.push(u64::from(depend.element))?;
    append_measured(&mut key, depend.slot.as_slice())?;
    append_measured(&mut key, depend.target.as_slice())?;
    append_bytes(&mut key, code)?;
    Ok(key)
}
