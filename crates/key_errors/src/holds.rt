//! The test whether a refusal of a key holds of a table of a file.
ghost use Rattle.std.specs.Prelude.{◌≡◌, IfOk, option_map};
ghost use Rattle.toml.specs.View.{table_view, view};
ghost use Rattle.key_errors.specs.Holds as holds;

use crate::key_forms::{form_of, stands};
use crate::key_tables::{KeyFault, KeyTable, is_among};
use hub_kinds::NoMemory;
use std::alloc::Global;
use toml::{Table, Value};
use toml_keys::value_at;

fn is_key(kind: KeyTable, key: &[u8]) -> bool
    ensures { result ≡ holds.is_key kind key.now }
{
    is_among(kind.keys(), key)
}

/// Whether more than one table of the file may have its keys.
fn is_one_of_many(kind: KeyTable) -> bool
    ensures { result ≡ holds.is_one_of_many kind }
{
    match kind {
        KeyTable::Hub
        | KeyTable::Partner
        | KeyTable::Route
        | KeyTable::Counter
        | KeyTable::Dependency => true,
        _ => false,
    }
}

/// Whether a value may be at a key of a table.
fn fits(alloc: Global, kind: KeyTable, key: &[u8], value: &Value) -> Result<bool, NoMemory>
    ensures { IfOk result (λ yes. yes ≡ holds.fits kind key.now (view value.now)) }
{
    Ok(is_one_of_many(kind) && stands(alloc, form_of(kind, key), value)?)
}

fn is_known(kind: KeyTable, key: &[u8]) -> bool
    ensures { result ≡ holds.is_known kind key.now }
{
    match kind {
        KeyTable::Counter => is_key(kind, key) && !(key == b"group".as_slice()),
        _ => is_key(kind, key),
    }
}

/// Whether what is at a key, where something does, can't be there.
fn is_wrong(
    alloc: Global,
    kind: KeyTable,
    key: &[u8],
    value: Option<&Value>,
) -> Result<bool, NoMemory>
    ensures { IfOk result (λ yes. yes ≡ holds.is_wrong kind key.now (option_map (λ v. view v.now) value.entry)) }
{
    match value {
        None => Ok(false),
        Some(value) => Ok(!fits(alloc, kind, key, value)?),
    }
}

/// Whether the refusal of a key holds of a table. The only error is out of memory.
pub(crate) fn holds(
    alloc: Global,
    kind: KeyTable,
    why: KeyFault,
    key: &str,
    table: &Table,
) -> Result<bool, NoMemory>
    ensures { IfOk result (λ yes. yes ≡ holds.holds kind why key.now (table_view table.now)) }
{
    let value = value_at(table, key);
    match why {
        KeyFault::Missing => Ok(is_key(kind, key.as_bytes()) && value.is_none()),
        KeyFault::WrongKind => {
            Ok(is_key(kind, key.as_bytes()) && is_wrong(alloc, kind, key.as_bytes(), value)?)
        }
        KeyFault::Unknown => Ok(!is_known(kind, key.as_bytes()) && value.is_some()),
    }
}
