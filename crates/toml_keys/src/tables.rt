ghost use Rattle.std.specs.Prelude.{◌≡◌, None, option_map};
ghost use Rattle.toml.specs.Data.{no_items, as_table};
ghost use Rattle.toml.specs.View.{table_view, items_view, view};
ghost use Rattle.toml_keys.specs.Answers.{meaning_of};
ghost use Rattle.toml_keys.specs.Meanings.{GivesAs};
ghost use Rattle.toml_keys.specs.Tables as tables;

use crate::file_fault::FileFault;
use crate::reading::value_at;
use toml::{Table, Value};

fn are_tables(values: &[Value]) -> bool
    ensures { result ≡ tables.are_tables (items_view values.now) }
{
    for value in values {
        if value.as_table().is_none() {
            return false;
        }
    }
    true
}

/// A list of tables.
fn tables_in(value: &Value) -> Option<&[Value]>
    ensures { option_map (λ v. items_view v.now) result ≡ tables.tables_in (view value.entry.now) }
{
    match value.as_array() {
        None => None,
        Some(values) => {
            if are_tables(values) {
                Some(values.as_slice())
            } else {
                None
            }
        }
    }
}

/// The list of tables at a key that must be there.
pub fn tables_at<'a>(table: &'a Table, key: &'static str) -> Result<&'a [Value], FileFault>
    ensures { GivesAs meaning_of (λ v. items_view v.now) result
        (tables.required tables.tables_in key.now (table_view table.now)) }
{
    match value_at(table, key) {
        None => Err(FileFault::Missing(key)),
        Some(value) => match tables_in(value) {
            None => Err(FileFault::WrongKind(key)),
            Some(listed) => Ok(listed),
        },
    }
}

/// The list of tables at a key that may be absent; an empty one where there is nothing.
pub fn some_tables_at<'a>(table: &'a Table, key: &'static str) -> Result<&'a [Value], FileFault>
    ensures { GivesAs meaning_of (λ v. items_view v.now) result
        (tables.optional no_items tables.tables_in key.now (table_view table.now)) }
{
    match value_at(table, key) {
        None => Ok(&[]),
        Some(value) => match tables_in(value) {
            None => Err(FileFault::WrongKind(key)),
            Some(values) => Ok(values),
        },
    }
}

/// The table at a key that must be there.
pub fn table_at<'a>(table: &'a Table, key: &'static str) -> Result<&'a Table, FileFault>
    ensures { GivesAs meaning_of (λ t. table_view t.now) result
        (tables.required as_table key.now (table_view table.now)) }
{
    match value_at(table, key) {
        None => Err(FileFault::Missing(key)),
        Some(value) => match value.as_table() {
            None => Err(FileFault::WrongKind(key)),
            Some(inner) => Ok(inner),
        },
    }
}

/// The table at a key that may be absent.
pub fn some_table_at<'a>(
    table: &'a Table,
    key: &'static str,
) -> Result<Option<&'a Table>, FileFault>
    ensures { GivesAs meaning_of (λ o. option_map (λ t. table_view t.now) o) result
        (tables.optional None tables.some_table key.now (table_view table.now)) }
{
    match value_at(table, key) {
        None => Ok(None),
        Some(value) => match value.as_table() {
            None => Err(FileFault::WrongKind(key)),
            Some(inner) => Ok(Some(inner)),
        },
    }
}
