ghost use Rattle.std.specs.Prelude.{◌≡◌, None, IfErr, IfOk};
ghost use Rattle.toml.specs.View.{table_view};
ghost use Rattle.guide_names.specs.Names.{words_of};
ghost use Rattle.guide_names.specs.Refusals as refusals;

use crate::fault::NamesFault;
use crate::names::Names;
use crate::refused::refused_in;
use std::alloc::Global;
use toml::Table;

/// The names that a table has.
fn names_of(alloc: Global, table: Table) -> Result<Names, NamesFault>
    ensures names { IfOk result (λ names. names ≡ words_of (table_view table)) }
    ensures known { IfOk result (λ names. refusals.refused_in (table_view table) ≡ None) }
    ensures refused { IfErr result (refusals.IsFaultOf (table_view table)) }
{
    match refused_in(alloc, &table) {
        Ok(None) => Ok(Names::of(table)),
        Ok(Some(refused)) => Err(NamesFault::Key(refused)),
        Err(_) => Err(NamesFault::NoMemory),
    }
}

/// Reads a names file. Its bytes are TOML. Its tables are `set`, with `name` and `note`; `segment`, with the name of each segment under
/// its id; `element`, with a table for each reference number, which has the element's `name` and the name of each code under the code;
/// and `label`, with a table for each label, which has a `note`. All are optional, and all names and notes are texts.
pub fn read_names(alloc: Global, bytes: &[u8]) -> Result<Names, NamesFault>
    ensures names { IfOk result (refusals.AreNamesOf bytes.now) }
    ensures refused { IfErr result (refusals.IsNamesFaultOf bytes.now) }
{
    let Ok(text) = std::str::from_utf8(bytes) else {
        return Err(NamesFault::NotToml);
    };
    match toml::table_from_str(alloc, text) {
        Ok(table) => names_of(alloc, table),
        Err(e) if e.is_memory() => Err(NamesFault::NoMemory),
        Err(_) => Err(NamesFault::NotToml),
    }
}
