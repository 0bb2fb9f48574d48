//! What is wrong with each key of a file's tables, table by table.
ghost use Rattle.std.specs.Prelude.{◌≡◌, ◌++◌, ◌∷◌, [], IfOk, OnOk, map, option_map};
ghost use Rattle.std.specs.List.{flat_map};
ghost use Rattle.toml.specs.View.{table_view, view};
ghost use Rattle.toml_keys.specs.Keys.{least_unknown};
ghost use Rattle.key_errors.specs.KeysSaid as said;
ghost use Rattle.key_errors.specs.Seen.{seen};

use crate::key_forms::{form_of, is_free, own_keys, stands};
use crate::key_tables::{KeyFault, KeyTable};
use crate::key_words::append_spot;
use crate::spot::{RefusedKey, Spot};
use crate::spots::{counters_spots, guide_spots, setup_spots};
use crate::wanted::{guide_wanted, setup_wanted};
use hub_kinds::{Items, NoMemory, Text};
use std::alloc::Global;
use toml::{Table, Value};
use toml_keys::{FileFault, refuse_unknown, value_at};

fn is_of_guide(kind: KeyTable) -> bool
    ensures { result ≡ said.is_of_guide kind }
{
    match kind {
        KeyTable::Guide | KeyTable::Hierarchy | KeyTable::Dependency | KeyTable::Node => true,
        KeyTable::Setup
        | KeyTable::Hub
        | KeyTable::Partner
        | KeyTable::Route
        | KeyTable::Counters
        | KeyTable::Counter => false,
    }
}

fn wanted_at(kind: KeyTable, key: &[u8]) -> &'static [u8]
    ensures { result.now ≡ said.wanted_at kind key.now }
{
    if is_of_guide(kind) {
        guide_wanted(key)
    } else {
        setup_wanted(key)
    }
}

/// What is wrong at a key. The only error is out of memory.
fn key_fault(
    alloc: Global,
    kind: KeyTable,
    key: &[u8],
    value: Option<&Value>,
) -> Result<Option<KeyFault>, NoMemory>
    ensures { IfOk result (λ why. why ≡ said.key_fault kind key.now (option_map (λ v. view v.now) value.entry)) }
{
    match value {
        None if is_free(kind, key) => Ok(None),
        None => Ok(Some(KeyFault::Missing)),
        Some(value) => {
            if stands(alloc, form_of(kind, key), value)? {
                Ok(None)
            } else {
                Ok(Some(KeyFault::WrongKind))
            }
        }
    }
}

fn push_sentence(
    alloc: Global,
    found: &mut Vec<Text>,
    spot: Spot<'_>,
    why: KeyFault,
    key: &str,
) -> Result<(), NoMemory>
    ensures { OnOk result (found.new.items ≡ found.old.items ++ said.key_sentence (seen spot.entry) why key.now ∷ []) }
{
    let mut text = Vec::new(alloc);
    let wanted = wanted_at(spot.kind, key.as_bytes());
    append_spot(
        alloc,
        &mut text,
        RefusedKey { why, key },
        wanted,
        Some(spot),
    )?;
    found.push(Items::from_vec(text))?;
    Ok(())
}

/// Adds what is wrong at a key of a table.
fn push_key(alloc: Global, found: &mut Vec<Text>, spot: Spot<'_>, key: &str) -> Result<(), NoMemory>
    ensures { OnOk result (found.new.items ≡ found.old.items ++ said.key_said (seen spot.entry) key.now) }
{
    match key_fault(alloc, spot.kind, key.as_bytes(), value_at(spot.table, key))? {
        None => Ok(()),
        Some(why) => push_sentence(alloc, found, spot, why, key),
    }
}

fn push_own_keys(
    alloc: Global,
    found: &mut Vec<Text>,
    spot: Spot<'_>,
    keys: &[&str],
) -> Result<(), NoMemory>
    ensures { OnOk result (found.new.items
        ≡ found.old.items ++ flat_map (said.key_said (seen spot.entry)) (map (λ key. key.now) keys.now)) }
{
    for key in keys {
        push_key(alloc, found, spot, key)?;
    }
    Ok(())
}

/// Adds the least key that a table may not have.
fn push_unknown(
    alloc: Global,
    found: &mut Vec<Text>,
    spot: Spot<'_>,
    keys: &[&str],
) -> Result<(), NoMemory>
    ensures { OnOk result (found.new.items ≡ found.old.items
        ++ said.unknown_said (seen spot.entry) (least_unknown (map (λ key. key.now) keys.now) (table_view spot.entry.table.now))) }
{
    match refuse_unknown(alloc, spot.table, keys) {
        Ok(()) => Ok(()),
        Err(FileFault::Unknown(key)) => {
            push_sentence(alloc, found, spot, KeyFault::Unknown, key.as_str())
        }
        Err(_) => Err(NoMemory),
    }
}

/// Adds what is wrong with the keys of a table.
fn push_spot(alloc: Global, found: &mut Vec<Text>, spot: Spot<'_>) -> Result<(), NoMemory>
    ensures { OnOk result (found.new.items ≡ found.old.items ++ said.spot_said (seen spot.entry)) }
{
    let keys = own_keys(spot.kind, spot.table);
    push_unknown(alloc, found, spot, keys)?;
    push_own_keys(alloc, found, spot, keys)
}

fn push_spots(alloc: Global, found: &mut Vec<Text>, spots: &[Spot<'_>]) -> Result<(), NoMemory>
    ensures { OnOk result (found.new.items ≡ found.old.items ++ said.keys_said (map seen spots.now)) }
{
    for i in 0..spots.len() {
        push_spot(alloc, found, spots[i])?;
    }
    Ok(())
}

/// Adds what is wrong with the keys of a setup file's tables. The only error is out of memory.
pub fn push_setup_keys_said(
    alloc: Global,
    found: &mut Vec<Text>,
    top: &Table,
) -> Result<(), NoMemory>
    ensures { OnOk result (found.new.items ≡ found.old.items ++ said.setup_keys_said (table_view top.now)) }
{
    let spots = setup_spots(alloc, top)?;
    push_spots(alloc, found, spots.as_slice())
}

/// Adds what is said of the keys of a counters file.
pub fn push_counters_keys_said(
    alloc: Global,
    found: &mut Vec<Text>,
    top: &Table,
) -> Result<(), NoMemory>
    ensures { OnOk result (found.new.items ≡ found.old.items ++ said.counters_keys_said (table_view top.now)) }
{
    let spots = counters_spots(alloc, top)?;
    push_spots(alloc, found, spots.as_slice())
}

/// Adds what is said of the keys of a guide file.
pub fn push_guide_keys_said(
    alloc: Global,
    found: &mut Vec<Text>,
    top: &Table,
) -> Result<(), NoMemory>
    ensures { OnOk result (found.new.items ≡ found.old.items ++ said.guide_keys_said (table_view top.now)) }
{
    let spots = guide_spots(alloc, top)?;
    push_spots(alloc, found, spots.as_slice())
}
