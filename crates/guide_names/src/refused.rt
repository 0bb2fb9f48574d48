//! The first key of a names file that is refused.
ghost use Rattle.std.specs.Prelude.{◌≡◌, ◌++◌, ◌∷◌, [], IfOk, map};
ghost use Rattle.toml.specs.View.{table_view, view};
ghost use Rattle.guide_names.specs.Refusals as refusals;

use crate::fault::{Cause, Refused};
use hub_kinds::{Items, NoMemory, Text, Texts, copy_text};
use std::alloc::Global;
use toml::{Table, Value};

/// A table that has texts alone.
#[derive(Clone, Copy, Debug, PartialEq, Eq)]
pub(crate) enum Leaf {
    /// `[set]`.
    Set,
    /// `[segment]`, and the table of an element.
    Words,
    /// The table of a label.
    Label,
}

fn copies(alloc: Global, keys: &[&str]) -> Result<Texts, NoMemory>
    ensures { IfOk result (λ texts. texts ≡ map (λ k. k.now) keys.now) }
{
    let mut texts = Vec::new(alloc);
    for key in keys {
        texts.push(copy_text(alloc, key.as_bytes())?)?;
    }
    Ok(Items::from_vec(texts))
}

fn refusal(
    alloc: Global,
    why: Cause,
    tables: &[&str],
    key: &str,
) -> Result<Option<Refused>, NoMemory>
    ensures { IfOk result (λ found. found ≡ refusals.refusal why (map (λ k. k.now) tables.now) key.now) }
{
    let tables = copies(alloc, tables)?;
    let key: Text = copy_text(alloc, key.as_bytes())?;
    Ok(Some(Refused { tables, key, why }))
}

fn text_fault(
    alloc: Global,
    tables: &[&str],
    key: &str,
    value: &Value,
) -> Result<Option<Refused>, NoMemory>
    ensures { IfOk result (λ found. found ≡ refusals.text (map (λ k. k.now) tables.now) key.now (view value.now)) }
{
    match value.as_str() {
        Some(_) => Ok(None),
        None => refusal(alloc, Cause::NotText, tables, key),
    }
}

fn set_key_fault(
    alloc: Global,
    tables: &[&str],
    key: &str,
    value: &Value,
) -> Result<Option<Refused>, NoMemory>
    ensures { IfOk result (λ found. found ≡ refusals.set_key (map (λ k. k.now) tables.now) key.now (view value.now)) }
{
    if key.as_bytes() == b"name".as_slice() || key.as_bytes() == b"note".as_slice() {
        text_fault(alloc, tables, key, value)
    } else {
        refusal(alloc, Cause::Unknown, tables, key)
    }
}

fn label_key_fault(
    alloc: Global,
    tables: &[&str],
    key: &str,
    value: &Value,
) -> Result<Option<Refused>, NoMemory>
    ensures { IfOk result (λ found. found ≡ refusals.label_key (map (λ k. k.now) tables.now) key.now (view value.now)) }
{
    if key.as_bytes() == b"note".as_slice() {
        text_fault(alloc, tables, key, value)
    } else {
        refusal(alloc, Cause::Unknown, tables, key)
    }
}

fn leaf_key_fault(
    alloc: Global,
    leaf: Leaf,
    tables: &[&str],
    key: &str,
    value: &Value,
) -> Result<Option<Refused>, NoMemory>
    ensures { IfOk result (λ found. found ≡ refusals.judge_of leaf (map (λ k. k.now) tables.now) key.now (view value.now)) }
{
    match leaf {
        Leaf::Set => set_key_fault(alloc, tables, key, value),
        Leaf::Words => text_fault(alloc, tables, key, value),
        Leaf::Label => label_key_fault(alloc, tables, key, value),
    }
}

fn leaf_fault(
    alloc: Global,
    leaf: Leaf,
    tables: &[&str],
    table: &Table,
) -> Result<Option<Refused>, NoMemory>
    ensures { IfOk result (λ found. found
        ≡ refusals.first_refused (refusals.judge_of leaf) (map (λ k. k.now) tables.now) (table_view table.now)) }
{
    for (key, value) in table.iter() {
        if let Some(refused) = leaf_key_fault(alloc, leaf, tables, key.as_str(), value)? {
            return Ok(Some(refused));
        }
    }
    Ok(None)
}

/// The keys of `tables` and one more.
fn deeper<'k>(alloc: Global, tables: &[&'k str], key: &'k str) -> Result<Vec<&'k str>, NoMemory>
    ensures { IfOk result (λ keys. map (λ k. k.now) keys.items ≡ map (λ k. k.now) tables.now ++ key.entry.now ∷ []) }
{
    let mut keys = Vec::from_slice(alloc, tables)?;
    keys.push(key)?;
    Ok(keys)
}

/// What is refused of a value that must be a table with texts alone.
fn inner_fault(
    alloc: Global,
    leaf: Leaf,
    tables: &[&str],
    key: &str,
    value: &Value,
) -> Result<Option<Refused>, NoMemory>
    ensures { IfOk result (λ found. found
        ≡ refusals.table_of (refusals.judge_of leaf) (map (λ k. k.now) tables.now) key.now (view value.now)) }
{
    match value.as_table() {
        None => refusal(alloc, Cause::NotTable, tables, key),
        Some(table) => {
            let inner = deeper(alloc, tables, key)?;
            leaf_fault(alloc, leaf, inner.as_slice(), table)
        }
    }
}

fn middle_fault(
    alloc: Global,
    leaf: Leaf,
    tables: &[&str],
    table: &Table,
) -> Result<Option<Refused>, NoMemory>
    ensures { IfOk result (λ found. found ≡ refusals.first_refused (refusals.table_of (refusals.judge_of leaf))
        (map (λ k. k.now) tables.now) (table_view table.now)) }
{
    for (key, value) in table.iter() {
        if let Some(refused) = inner_fault(alloc, leaf, tables, key.as_str(), value)? {
            return Ok(Some(refused));
        }
    }
    Ok(None)
}

/// What is refused of a value that must be a table of such tables.
fn outer_fault(
    alloc: Global,
    leaf: Leaf,
    tables: &[&str],
    key: &str,
    value: &Value,
) -> Result<Option<Refused>, NoMemory>
    ensures { IfOk result (λ found. found ≡ refusals.table_of (refusals.table_of (refusals.judge_of leaf))
        (map (λ k. k.now) tables.now) key.now (view value.now)) }
{
    match value.as_table() {
        None => refusal(alloc, Cause::NotTable, tables, key),
        Some(table) => {
            let inner = deeper(alloc, tables, key)?;
            middle_fault(alloc, leaf, inner.as_slice(), table)
        }
    }
}

fn file_key_fault(
    alloc: Global,
    tables: &[&str],
    key: &str,
    value: &Value,
) -> Result<Option<Refused>, NoMemory>
    ensures { IfOk result (λ found. found ≡ refusals.file_key (map (λ k. k.now) tables.now) key.now (view value.now)) }
{
    let name = key.as_bytes();
    if name == b"set".as_slice() {
        inner_fault(alloc, Leaf::Set, tables, key, value)
    } else if name == b"segment".as_slice() {
        inner_fault(alloc, Leaf::Words, tables, key, value)
    } else if name == b"element".as_slice() {
        outer_fault(alloc, Leaf::Words, tables, key, value)
    } else if name == b"label".as_slice() {
        outer_fault(alloc, Leaf::Label, tables, key, value)
    } else {
        refusal(alloc, Cause::Unknown, tables, key)
    }
}

/// The first key of a file's `table` that is refused.
pub(crate) fn refused_in(alloc: Global, table: &Table) -> Result<Option<Refused>, NoMemory>
    ensures { IfOk result (λ found. found ≡ refusals.refused_in (table_view table.now)) }
{
    for (key, value) in table.iter() {
        if let Some(refused) = file_key_fault(alloc, &[], key.as_str(), value)? {
            return Ok(Some(refused));
        }
    }
    Ok(None)
}
