//! What is at a key of a table, if there is one.
ghost use Rattle.std.specs.Prelude.{◌≡◌, option_map};
ghost use Rattle.toml.specs.Data.{get_member};
ghost use Rattle.toml.specs.View.{table_view, view};
ghost use Rattle.guide_names.specs.Names as names;

use toml::{Table, Value};
use toml_keys::value_at;

/// The value at a key. A key that is no UTF-8 has none.
fn value_under<'t>(table: &'t Table, key: &[u8]) -> Option<&'t Value>
    ensures { option_map (λ v. view v.now) result ≡ get_member key.now (table_view table.entry.now) }
{
    match std::str::from_utf8(key) {
        Ok(key) => value_at(table, key),
        Err(_) => None,
    }
}

/// The text at a key.
pub(crate) fn text_at<'t>(table: Option<&'t Table>, key: &[u8]) -> Option<&'t [u8]>
    ensures { option_map (λ t. t.now) result
        ≡ names.text_at key.now (names.texts_of (names.members_or_none (option_map (λ t. table_view t.now) table.entry))) }
{
    match table {
        None => None,
        Some(table) => match value_under(table, key) {
            None => None,
            Some(value) => text_in(value),
        },
    }
}

fn text_in(value: &Value) -> Option<&[u8]>
    ensures { option_map (λ t. t.now) result ≡ Rattle.toml.specs.Data.as_str (view value.entry.now) }
{
    match value.as_str() {
        None => None,
        Some(text) => Some(text.as_bytes()),
    }
}

/// The table at a key.
pub(crate) fn table_in<'t>(table: Option<&'t Table>, key: &[u8]) -> Option<&'t Table>
    ensures { names.members_or_none (option_map (λ t. table_view t.now) result)
        ≡ names.inside key.now (names.members_or_none (option_map (λ t. table_view t.now) table.entry)) }
{
    match table {
        None => None,
        Some(table) => match value_under(table, key) {
            None => None,
            Some(value) => value.as_table(),
        },
    }
}
