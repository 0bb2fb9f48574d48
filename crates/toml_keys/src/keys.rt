ghost use Rattle.std.specs.Prelude.{◌≡◌, Ok, map, option_map, string_bytes};
ghost use Rattle.toml.specs.View.{table_view};
ghost use Rattle.hub_kinds.specs.Words.{contains_text};
ghost use Rattle.toml_keys.specs.Answers.{Gives};
ghost use Rattle.toml_keys.specs.Keys.{least_unknown, if_known};

use crate::file_fault::FileFault;
use std::alloc::Global;
use toml::Table;

fn is_listed(listed: &[&str], key: &str) -> bool
    ensures { result ≡ contains_text (map (λ key. key.now) listed.now) key.now }
{
    for own in listed {
        if own.as_bytes() == key.as_bytes() {
            return true;
        }
    }
    false
}

/// The least key of a table that isn't listed.
fn least_unknown<'a>(table: &'a Table, listed: &[&str]) -> Option<&'a String>
    ensures { option_map (λ k. string_bytes k.now) result
        ≡ least_unknown (map (λ key. key.now) listed.now) (table_view table.entry.now) }
{
    table.keys().find(|key| !is_listed(listed, key.as_str()))
}

/// Refuses the least key of a table that isn't listed, in the order of bytes.
pub fn refuse_unknown(alloc: Global, table: &Table, listed: &[&str]) -> Result<(), FileFault>
    ensures { Gives result (if_known (least_unknown (map (λ key. key.now) listed.now) (table_view table.now)) (Ok tt)) }
{
    match least_unknown(table, listed) {
        None => Ok(()),
        Some(key) => match String::from_str(alloc, key.as_str()) {
            Ok(key) => Err(FileFault::Unknown(key)),
            Err(_) => Err(FileFault::NoMemory),
        },
    }
}
