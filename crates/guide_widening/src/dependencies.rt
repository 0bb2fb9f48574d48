ghost use Rattle.std.specs.Prelude.{◌≡◌, ◌++◌, ℕ, List, IfOk, OnOk};
ghost use Rattle.std.specs.List.{flat_map};
ghost use Rattle.guide_tree.specs.Codes.{Knows};
ghost use Rattle.guide_widening.specs.Changes as changes;
ghost use Rattle.guide_widening.specs.Changes.{items_differences, said};
ghost use Rattle.guide_widening.specs.Differences as guides;
ghost use Rattle.guide_widening.specs.Keys.{code_keys};
ghost use Rattle.guide_widening.specs.NodeDifferences as nodes;
ghost use Rattle.guide_widening.specs.Rules as rules;
ghost use Rattle.guide_widening.specs.declared.difference.Change.TheVariants.{Narrower, Wider};
ghost use Rattle.guide_widening.specs.declared.difference.Key.TheVariants as key;
ghost use Rattle.guide_widening.specs.declared.difference.Value.TheVariants as value;

use crate::difference::{Change, Difference, Key, Value};
use crate::keys::{dependency_key, has_key, insert_key};
use crate::push::push;
use crate::values::at_node;
use crate::written::dependency_written;
use guide_tree::Dependency;
use hub_kinds::NoMemory;
use std::alloc::Global;
use std::collections::BTreeSet;

/// Adds the keys of the codes of `depend`.
fn add_keys(
    alloc: Global,
    known: &mut BTreeSet<Vec<u64>>,
    depend: &Dependency,
) -> Result<(), NoMemory>
    ensures { OnOk result ((all : List (List ℕ)) → Knows known.old all → Knows known.new (all ++ code_keys depend.now)) }
{
    let codes = depend.codes.as_slice();
    for i in 0..codes.len() {
        let key = dependency_key(alloc, depend, codes[i].as_slice())?;
        insert_key(known, key)?;
    }
    Ok(())
}

/// The keys of the codes of dependencies.
fn keys_of(alloc: Global, depends: &[Dependency]) -> Result<BTreeSet<Vec<u64>>, NoMemory>
    ensures { IfOk result (λ known. Knows known (flat_map code_keys depends.now)) }
{
    let mut known = BTreeSet::new(alloc);
    for i in 0..depends.len() {
        add_keys(alloc, &mut known, &depends[i])?;
    }
    Ok(known)
}

/// Whether `code` makes one of `depends`, which have the keys `known`, ask the same as `depend`.
fn is_code_asked(
    alloc: Global,
    depends: &[Dependency],
    known: &BTreeSet<Vec<u64>>,
    depend: &Dependency,
    code: &[u8],
) -> Result<bool, NoMemory>
    requires { Knows known.now (flat_map code_keys depends.now) }
    ensures { IfOk result (λ is. is ≡ rules.is_code_asked depends.now depend.now code.now) }
{
    let key = dependency_key(alloc, depend, code)?;
    Ok(has_key(known, key.as_slice()))
}

/// Whether `depends`, which have the keys `known`, ask for all of `depend`.
fn is_kept(
    alloc: Global,
    depends: &[Dependency],
    known: &BTreeSet<Vec<u64>>,
    depend: &Dependency,
) -> Result<bool, NoMemory>
    requires { Knows known.now (flat_map code_keys depends.now) }
    ensures { IfOk result (λ is. is ≡ rules.is_dependency_kept depends.now depend.now) }
{
    let codes = depend.codes.as_slice();
    for i in 0..codes.len() {
        if !is_code_asked(alloc, depends, known, depend, codes[i].as_slice())? {
            return Ok(false);
        }
    }
    Ok(true)
}

/// Adds `depend`, as new, unless `old` asks for all of it.
fn push_new(
    alloc: Global,
    found: &mut Vec<Difference>,
    old: &[Dependency],
    known: &BTreeSet<Vec<u64>>,
    depend: &Dependency,
) -> Result<(), NoMemory>
    requires { Knows known.now (flat_map code_keys old.now) }
    ensures { OnOk result (found.new.items ≡ found.old.items
        ++ said (nodes.at_node 0) key.Dependency (changes.unless (rules.is_dependency_kept old.now depend.now) Narrower)
        value.Nothing (guides.dependency_value depend.now)) }
{
    if is_kept(alloc, old, known, depend)? {
        return Ok(());
    }
    let after = dependency_written(alloc, depend)?;
    push(
        found,
        at_node(0),
        Key::Dependency,
        Some(Change::Narrower),
        Value::Nothing,
        after,
    )
}

/// Adds `depend`, as gone, unless `new` asks for all of it.
fn push_gone(
    alloc: Global,
    found: &mut Vec<Difference>,
    new: &[Dependency],
    known: &BTreeSet<Vec<u64>>,
    depend: &Dependency,
) -> Result<(), NoMemory>
    requires { Knows known.now (flat_map code_keys new.now) }
    ensures { OnOk result (found.new.items ≡ found.old.items
        ++ said (nodes.at_node 0) key.Dependency (changes.unless (rules.is_dependency_kept new.now depend.now) Wider)
        (guides.dependency_value depend.now) value.Nothing) }
{
    if is_kept(alloc, new, known, depend)? {
        return Ok(());
    }
    let before = dependency_written(alloc, depend)?;
    push(
        found,
        at_node(0),
        Key::Dependency,
        Some(Change::Wider),
        before,
        Value::Nothing,
    )
}

fn push_each_new(
    alloc: Global,
    found: &mut Vec<Difference>,
    old: &[Dependency],
    new: &[Dependency],
) -> Result<(), NoMemory>
    ensures { OnOk result (found.new.items ≡ found.old.items
        ++ items_differences (rules.is_dependency_kept old.now) (nodes.at_node 0) key.Dependency Narrower (λ d. value.Nothing)
        guides.dependency_value new.now) }
{
    let known = keys_of(alloc, old)?;
    for i in 0..new.len() {
        push_new(alloc, found, old, &known, &new[i])?;
    }
    Ok(())
}

fn push_each_gone(
    alloc: Global,
    found: &mut Vec<Difference>,
    old: &[Dependency],
    new: &[Dependency],
) -> Result<(), NoMemory>
    ensures { OnOk result (found.new.items ≡ found.old.items
        ++ items_differences (rules.is_dependency_kept new.now) (nodes.at_node 0) key.Dependency Wider guides.dependency_value
        (λ d. value.Nothing) old.now) }
{
    let known = keys_of(alloc, new)?;
    for i in 0..old.len() {
        push_gone(alloc, found, new, &known, &old[i])?;
    }
    Ok(())
}

/// Adds what the dependencies of two guides say otherwise.
pub(crate) fn push_dependencies(
    alloc: Global,
    found: &mut Vec<Difference>,
    old: &[Dependency],
    new: &[Dependency],
) -> Result<(), NoMemory>
    ensures { OnOk result (found.new.items ≡ found.old.items ++ guides.dependency_differences old.now new.now) }
{
    push_each_new(alloc, found, old, new)?;
    push_each_gone(alloc, found, old, new)
}
